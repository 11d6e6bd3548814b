//! Fields of a text.

ghost use Rattle.std.specs.Prelude.{◌≡◌, ◌↔◌, ◌++◌, [], ◌∷◌, List, ℕ, IfSome, IsSomeAnd, IsTrue};
ghost use Rattle.std.specs.List.{join_with_byte};
ghost use Rattle.fp_replay.specs.proof_only.Fields.{IsField};

/// Whether a field has this text.
pub(crate) fn is_text(field: &[u8], text: &[u8]) -> bool
    ensures { IsTrue result ↔ (field.now ≡ text.now) }
{
    field == text
}

/// The text before the first blank and the text after it, or `None` if there is no blank.
pub(crate) fn cut(text: &[u8]) -> Option<(&[u8], &[u8])>
    ensures found { IfSome result (λ cut. text.now ≡ cut.0.now ++ 32 ∷ cut.1.now) }
    ensures only { (a b : List ℕ) → IsField a → text.now ≡ a ++ 32 ∷ b → IsSomeAnd result (λ cut. (cut.0.now ≡ a) × (cut.1.now ≡ b)) }
{
    for (place, octet) in text.iter().enumerate() {
        if *octet == b' ' {
            return Some((&text[..place], &text[place + 1..]));
        }
    }
    None
}

/// The one field of a text that begins with a blank.
pub(crate) fn one_field(text: &[u8]) -> Option<&[u8]>
    ensures found { IfSome result (λ field. text.now ≡ 32 ∷ field.now) }
    ensures only { (a : List ℕ) → text.now ≡ 32 ∷ a → IsSomeAnd result (λ field. field.now ≡ a) }
{
    let [b' ', field @ ..] = text else {
        return None;
    };
    Some(field)
}

/// Two fields, each after a blank.
pub(crate) fn two_fields(text: &[u8]) -> Option<(&[u8], &[u8])>
    ensures found { IfSome result (λ f. text.now ≡ 32 ∷ join_with_byte 32 (f.0.now ∷ f.1.now ∷ [])) }
    ensures only { (a b : List ℕ) → IsField a → text.now ≡ 32 ∷ join_with_byte 32 (a ∷ b ∷ []) → IsSomeAnd result (λ f. (f.0.now ≡ a) × (f.1.now ≡ b)) }
{
    cut(one_field(text)?)
}

/// Three fields, each after a blank.
pub(crate) fn three_fields(text: &[u8]) -> Option<(&[u8], &[u8], &[u8])>
    ensures found { IfSome result (λ f. text.now ≡ 32 ∷ join_with_byte 32 (f.0.now ∷ f.1.now ∷ f.2.now ∷ [])) }
    ensures only { (a b c : List ℕ) → IsField a → IsField b → text.now ≡ 32 ∷ join_with_byte 32 (a ∷ b ∷ c ∷ []) → IsSomeAnd result (λ f. (f.0.now ≡ a) × (f.1.now ≡ b) × (f.2.now ≡ c)) }
{
    let (first, behind) = two_fields(text)?;
    let (second, third) = cut(behind)?;
    Some((first, second, third))
}

/// Four fields, each after a blank.
pub(crate) fn four_fields(text: &[u8]) -> Option<(&[u8], &[u8], &[u8], &[u8])>
    ensures found { IfSome result (λ f. text.now ≡ 32 ∷ join_with_byte 32 (f.0.now ∷ f.1.now ∷ f.2.now ∷ f.3.now ∷ [])) }
    ensures only { (a b c d : List ℕ) → IsField a → IsField b → IsField c → text.now ≡ 32 ∷ join_with_byte 32 (a ∷ b ∷ c ∷ d ∷ []) → IsSomeAnd result (λ f. (f.0.now ≡ a) × (f.1.now ≡ b) × (f.2.now ≡ c) × (f.3.now ≡ d)) }
{
    let (first, second, behind) = three_fields(text)?;
    let (third, fourth) = cut(behind)?;
    Some((first, second, third, fourth))
}
