// Drafts of rule files, for the tests.
use rulefile::check::check_rule;
use rulefile::draft::Draft;
use rulefile::draft::make::make_draft;
use rulefile::record::StateRecord;
use rules::Move;

// What a function makes of the draft of a rule file.
pub(crate) fn with_draft<T, F: FnOnce(&Draft) -> T>(file: &[u8], f: F) -> T
    requires { F.IsAlwaysCallable f }
{
    let mut states = [StateRecord::default(); 32];
    let mut moves = [Move::default(); 1024];
    let _ = check_rule(file, &mut states, &mut moves);
    f(&make_draft(file, &states, &moves))
}
