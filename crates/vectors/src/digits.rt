// Bytes as lower-case hexadecimal digits.
ghost use Rattle.std.specs.Prelude.{◌≡◌, ◌⊎◌, [], codes, not, IfSome};
ghost use Rattle.std.specs.Char.{is_ascii_uppercase};
ghost use Rattle.std.specs.List.{list_all};
ghost use Rattle.hex.specs.Hex.{encode_lower};

use std::alloc::Global;

// Whether a text has no upper-case letter.
fn is_lower(text: &str) -> bool
    ensures { result ≡ list_all (λ letter. not (is_ascii_uppercase letter)) text.now }
{
    text.as_bytes()
        .iter()
        .all(|letter| !letter.is_ascii_uppercase())
}

// The bytes of a field; a hyphen stands for no bytes.
#[tactic(auto, using(crate::proofs::Spelling::lower_spelt))]
pub(crate) fn bytes_of(heap: Global, field: &str) -> Option<Vec<u8>>
    ensures { IfSome result (λ v. (encode_lower v.items ≡ field.now) ⊎ ((field.now ≡ codes "-") × (v.items ≡ []))) }
{
    if field == "-" {
        return Some(Vec::new(heap));
    }
    // Upper-case digits would be read as well, and are refused.
    if !is_lower(field) {
        return None;
    }
    hex::decode(heap, field).ok()
}
