// The program's output, from the bytes of its two files.
ghost use Rattle.std.specs.Prelude.{◌≡◌, ℕ, ◌++◌, IfOk, IfErr, string_bytes, OnOk};
ghost use Rattle.std.specs.Option.{option_map};
ghost use Rattle.rulefile.specs.Draft.{draft_rule, cards_of};
ghost use Rattle.rulefile.specs.File.{file_of};
ghost use Rattle.rulefile.specs.Rule.{Rule};
ghost use Rattle.listing.specs.Text.{cards_text, events_text, refusal_text};
ghost use Rattle.listing.specs.Output.{with_log, rule_text, output_text};

use crate::cards::Cards;
use crate::refused::{Refused, UNREADABLE};
use rulefile::check::check_rule;
use rulefile::draft::Draft;
use rulefile::draft::make::make_draft;
use rulefile::record::StateRecord;
use rules::Move;
use sources::plain::{PlainLog, check_log};
use sources::source::drain;
use std::alloc::Global;
use std::fmt;

// Writes a refusal's line.
fn push_refused(text: &mut String, refused: Refused) -> fmt::Result
    ensures { OnOk result (string_bytes text.new ≡ string_bytes text.old ++ refusal_text refused.number refused.place) }
{
    writeln!(text, "{refused}")?;
    Ok(())
}

// Writes a line for each card.
#[tactic(auto, using(crate::proofs::Lines::cards_lines))]
fn push_cards(text: &mut String, draft: &Draft) -> fmt::Result
    ensures { OnOk result (string_bytes text.new ≡ string_bytes text.old ++ cards_text 0 (cards_of (draft_rule draft.now))) }
{
    for card in Cards::of(draft) {
        writeln!(text, "{card}")?;
    }
    Ok(())
}

// Writes the rule's cards, and how many events there are.
fn push_contents(text: &mut String, draft: &Draft, events: u64) -> fmt::Result
    ensures { OnOk result (string_bytes text.new ≡ string_bytes text.old ++ (cards_text 0 (cards_of (draft_rule draft.now)) ++ events_text events)) }
{
    push_cards(text, draft)?;
    writeln!(text, "events {events}")?;
    Ok(())
}

// How many events a log has, or why it is refused: it is checked, opened as a plain log and played to its end.
fn count_events(log: Option<&[u8]>) -> Result<u64, Refused>
    ensures counted { IfOk result (λ n. (rule : Rule) → with_log rule (option_map (λ x. x.now) log.entry) ≡ cards_text 0 (cards_of rule) ++ events_text n) }
    ensures refused { IfErr result (λ r. (rule : Rule) → with_log rule (option_map (λ x. x.now) log.entry) ≡ refusal_text r.number r.place) }
{
    let log = log.ok_or(UNREADABLE)?;
    check_log(log)?;
    Ok(drain(&mut PlainLog::over(log)))
}

// Writes what comes of a good rule and the log: the log's fault, or the rule and its events.
fn push_log(text: &mut String, draft: &Draft, log: Option<&[u8]>) -> fmt::Result
    ensures { OnOk result (string_bytes text.new ≡ string_bytes text.old ++ with_log (draft_rule draft.now) (option_map (λ x. x.now) log.entry)) }
{
    match count_events(log) {
        Ok(events) => push_contents(text, draft, events),
        Err(refused) => push_refused(text, refused),
    }
}

// Writes what comes of a rule file and the log: the file's fault, or what comes of its rule.
#[tactic(auto, using(crate::proofs::Checked::taken_text))]
fn push_rule(text: &mut String, rule: &[u8], log: Option<&[u8]>) -> fmt::Result
    ensures { OnOk result (string_bytes text.new ≡ string_bytes text.old ++ rule_text rule.now (option_map (λ x. x.now) log.entry) (file_of rule.now)) }
{
    let mut states = [StateRecord::default(); 32];
    let mut moves = [Move::default(); 1024];
    match check_rule(rule, &mut states, &mut moves) {
        Ok(_) => push_log(text, &make_draft(rule, &states, &moves), log),
        Err(refusal) => push_refused(text, refusal.into()),
    }
}

// What the program prints, from the bytes of its files; none where a file is missing, cannot be read or is too long.
pub fn output(heap: Global, rule: Option<&[u8]>, log: Option<&[u8]>) -> Result<String, fmt::Error>
    ensures { IfOk result (λ s. string_bytes s ≡ output_text (option_map (λ x. x.now) rule.entry) (option_map (λ x. x.now) log.entry)) }
{
    let mut text = String::new(heap);
    match rule {
        None => push_refused(&mut text, UNREADABLE)?,
        Some(rule) => push_rule(&mut text, rule, log)?,
    }
    Ok(text)
}
