ghost use Rattle.std.specs.Prelude.{◌≡◌, ◌↔◌, IsTrue, IsSome, IfSome, true, nat_eq, bytes_eq};
ghost use Rattle.std.specs.Hash as fed;
ghost use Rattle.std.specs.Cmp.Lexicographic.{pointwise, nat_list_eq_equiv};
ghost use Rattle.std.specs.Cmp.{partial_equiv_from_equiv};
ghost use Rattle.std.specs.Cmp.Rules.{hashing};
ghost use Rattle.std.proofs.Common.{rules};
ghost use Rattle.ark_base.specs.Name as spec;

use std::hash::{Hash, Hasher};
use std::marker::Model;

/// A name of an application or a label: 1 to 15 bytes, a small letter and then small letters, digits and `_`.
/// Contracts see the list of its bytes.
#[derive(Clone, Copy, Debug)]
pub struct Name {
    len: u8,
    bytes: [u8; 15],
}

impl Model for Name {
    ghost use Rattle.std.specs.Prelude.{◌≡◌, List, ℕ, length, take, true};
    ghost use Rattle.std.proofs.Common.{sym};
    ghost use Rattle.ark_base.specs.Name.{is_name, padded};

    ghost Value = { List ℕ };

    ghost view = { λ n. take n.len n.bytes };

    ghost invariant = { λ n. (n.len ≡ length (take n.len n.bytes))
        × (n.bytes ≡ padded (take n.len n.bytes)) × (is_name (take n.len n.bytes) ≡ true) };

    ghost inverse = { λ xs. record { len = length xs; bytes = padded xs } };

    ghost inverse_ok = { λ a h i. record { len = sym h.0 i; bytes = sym h.1 i } };
}

/// The name of an application.
pub type AppName = Name;

/// The name under which an application holds an object.
pub type Label = Name;

fn is_name_byte(b: u8) -> bool
    ensures { result ≡ spec.is_name_byte b }
{
    b.is_ascii_lowercase() || b.is_ascii_digit() || b == b'_'
}

impl Name {
    /// The name that a text is, if it is one.
    pub fn read(text: &[u8]) -> Option<Name>
        ensures value { IfSome result (λ n. n ≡ text.now) }
        ensures found { IsSome result ↔ (spec.is_name text.now ≡ true) }
    {
        let [first, rest @ ..] = text else {
            return None;
        };
        if !first.is_ascii_lowercase() || rest.len() > 14 {
            return None;
        }
        let mut bytes = [0; 15];
        bytes[0] = *first;
        for (at, b) in rest.iter().enumerate() {
            if !is_name_byte(*b) {
                return None;
            }
            bytes[at + 1] = *b;
        }
        Some(Name {
            len: text.len() as u8,
            bytes,
        })
    }

    /// The bytes of the name.
    pub fn bytes(&self) -> &[u8]
        ensures value { result.now ≡ self.now }
        ensures name { spec.is_name self.now ≡ true }
    {
        &self.bytes[..self.len as usize]
    }

    /// Whether both are the same bytes.
    pub fn same(&self, other: &Name) -> bool
        ensures { result ≡ bytes_eq self.now other.now }
    {
        self.bytes() == other.bytes()
    }
}

impl PartialEq for Name {
    ghost eq = { pointwise nat_eq };

    ghost laws = { partial_equiv_from_equiv nat_list_eq_equiv };

    fn eq(&self, other: &Name) -> bool {
        self.bytes() == other.bytes()
    }
}

impl Eq for Name {
    ghost laws = { nat_list_eq_equiv };
}

impl Hash for Name {
    ghost hash_input = { fed.slice fed.u8 };

    ghost respects_eq = { Prim.search (hashing, rules) };

    fn hash<H: Hasher>(&self, state: &mut H) {
        self.bytes().hash(state);
    }
}
