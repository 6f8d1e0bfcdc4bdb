//! What holds of the spellings of headers and groups: each law is the contract of a function that does nothing.
ghost use Rattle.std.specs.Prelude.{◌≡◌, ◌<◌, ◌≤◌, ℕ, List, All, length, None, Some};
ghost use Rattle.cache_key.specs.declared.request.Mutation.{Mutation};
ghost use Rattle.cache_model.specs.PlainList.{spelled_length};
ghost use Rattle.record_form.specs.declared.header.Header.{Header};
ghost use Rattle.record_form.specs.declared.fault.RecordFault.{RecordFault};
ghost use Rattle.record_form.specs.HeaderText.{IsHeader, header_text};
ghost use Rattle.record_form.specs.Form.{fields_text};
ghost use Rattle.record_form.specs.GroupText.{AreMutations, IsGroup, IsGroupText, mutation_text, group_text, group_fields, most_group_bytes};
ghost use Rattle.record_form.specs.GroupFault.{group_fault, IsFirstFault};

/// A header has one spelling, and so has a group, which has at most so many bytes. Does nothing.
pub fn spellings_are_one()
    ensures header { (a b : Header) → IsHeader a → IsHeader b → header_text a ≡ header_text b → a ≡ b }
    ensures group { (a b : List Mutation) → IsGroup a → IsGroup b → group_text a ≡ group_text b → a ≡ b }
    ensures size { (group : List Mutation) → IsGroup group → length (group_text group) ≤ most_group_bytes }
{}

/// A fault of a payload is the first one. It lies in a field of the spelling of some mutations, after fields with which the
/// payload begins: it ends within that field; or the field is a number, and no mutations are spelled so with the number that
/// stands there; or it is a text, and none are with the byte or the character that does. The field decides the kind of the
/// fault, and the offset is its first byte, or that byte of the text. Else the bytes go on after the last mutation, or after
/// as many as a group may have. Does nothing.
pub fn fault_is_first()
    ensures { (payload : List ℕ) (fault : RecordFault) → All (λ byte. byte < 256) payload → group_fault payload ≡ Some fault → IsFirstFault payload fault }
{}

/// What has no fault is a group, and no other bytes are one. Does nothing.
pub fn faultless_bytes_are_a_group()
    ensures faultless { (payload : List ℕ) → All (λ byte. byte < 256) payload → group_fault payload ≡ None → (group : List Mutation) × IsGroupText payload group }
    ensures group { (payload : List ℕ) (group : List Mutation) → IsGroupText payload group → group_fault payload ≡ None }
{}

/// The spelling of mutations, after their count, is that of their fields. Does nothing.
pub fn fields_spell_mutations()
    ensures { (mutations : List Mutation) → AreMutations mutations → fields_text (group_fields mutations) ≡ group_text mutations }
{}

/// A mutation has the length that the model of contents counts. Does nothing.
pub fn mutations_have_the_lengths_of_the_model()
    ensures { (mutation : Mutation) → length (mutation_text mutation) ≡ spelled_length mutation }
{}
