//! Laws on elements, for all of them. They do nothing when they run.

ghost use Rattle.std.specs.Prelude.{◌≡◌, true, false};
ghost use Rattle.elem.specs.ElementValue.{ElementValue};
ghost use Rattle.elem.specs.Facts.{IsElement};
ghost use Rattle.elem.specs.Forms.{Find, find_in};
ghost use Rattle.elem.specs.Order.{beats};
ghost use Rattle.elem.specs.Said.{Says, HasValidTexts};
ghost use Rattle.elem.specs.Texts.{element_members, element_text};

/// To beat is a strict order: nothing beats itself, of two elements one at most beats the other,
/// and what beats an element beats all that it beats. Where neither beats the other, their
/// versions, their nonces and their texts are equal.
pub fn beats_is_an_order()
    ensures irreflexive { (e : ElementValue) → beats e e ≡ false }
    ensures asymmetric { (a b : ElementValue) → beats a b ≡ true → beats b a ≡ false }
    ensures transitive { (a b c : ElementValue) → beats a b ≡ true → beats b c ≡ true
        → beats a c ≡ true }
    ensures total { (a b : ElementValue)
        → beats a b ≡ false → beats b a ≡ false
        → (a.version ≡ b.version) × (a.nonce ≡ b.nonce) × (element_text a ≡ element_text b) }
{}

/// The members of an element say that element, and no members say two; so elements with one text
/// are the same.
pub fn text_tells_the_element()
    ensures says { (e : ElementValue) → IsElement e → HasValidTexts e
        → Says (find_in (element_members e)) e }
    ensures once { (find : Find) (a b : ElementValue) → Says find a → Says find b → a ≡ b }
    ensures same { (a b : ElementValue) → IsElement a → HasValidTexts a → IsElement b
        → HasValidTexts b
        → element_text a ≡ element_text b → a ≡ b }
{}
