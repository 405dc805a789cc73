ghost use Rattle.std.specs.Prelude.{◌≡◌, ◌≤◌, eqb, length, map, IfOk};
ghost use Rattle.std.specs.Char.{to_ascii_lowercase};
ghost use Rattle.std.specs.Cmp.Lexicographic.{pointwise, lists_equiv};
ghost use Rattle.std.specs.Cmp.{nat_eq_equiv, partial_equiv_from_equiv};

use crate::text::Text;
use sqlite_items::Boxed;
use std::alloc::{AllocError, Global};
use std::marker::Model;

/// How many bytes stand in the value itself at most: as many as make it two words large.
const ROOM: usize = 14;

/// How a name is kept.
#[derive(Drop)]
enum Kept {
    Short { count: u8, bytes: [u8; ROOM] },
    Long(Boxed<Text>),
}

/// A name. Up to 14 bytes stand in the value itself, so that most names take no memory of their own. Contracts see the
/// bytes, in order.
#[derive(Drop)]
pub struct Name {
    kept: Kept,
}

impl Model for Name {
    ghost use Rattle.std.specs.Prelude.{ℕ, List as Items};
    ghost use Rattle.lists.specs.KeptNames.{bytes_of, IsCounted};

    ghost Value = { Items ℕ };

    ghost view = { λ name. bytes_of name.kept };

    ghost invariant = { λ name. IsCounted name.kept };
}

impl PartialEq for Name {
    ghost eq = { pointwise eqb };

    ghost laws = { partial_equiv_from_equiv (lists_equiv nat_eq_equiv) };

    fn eq(&self, other: &Self) -> bool {
        self.as_slice() == other.as_slice()
    }
}

impl Eq for Name {
    ghost laws = { lists_equiv nat_eq_equiv };
}

impl Name {
    /// The name of these bytes.
    pub fn from_slice(alloc: Global, bytes: &[u8]) -> Result<Name, AllocError>
        ensures { IfOk result (λ name. name ≡ bytes.now) }
    {
        if bytes.len() <= ROOM {
            Ok(Name::short(bytes))
        } else {
            Name::long(alloc, Text::from_slice(alloc, bytes)?)
        }
    }

    /// The name of these bytes, with `a` to `z` in place of `A` to `Z`.
    pub fn lowered(alloc: Global, bytes: &[u8]) -> Result<Name, AllocError>
        ensures { IfOk result (λ name. name ≡ map to_ascii_lowercase bytes.now) }
    {
        if bytes.len() <= ROOM {
            let mut lowered = [0; ROOM];
            lowered[..bytes.len()].copy_from_slice(bytes);
            lowered[..bytes.len()].make_ascii_lowercase();
            Ok(Name::short(&lowered[..bytes.len()]))
        } else {
            Name::long(alloc, Text::from_vec(bytes.to_ascii_lowercase(alloc)?))
        }
    }

    fn short(name: &[u8]) -> Name
        requires { length name.now ≤ 14 }
        ensures { result ≡ name.now }
    {
        let mut bytes = [0; ROOM];
        bytes[..name.len()].copy_from_slice(name);
        let count = name.len() as u8;
        Name {
            kept: Kept::Short { count, bytes },
        }
    }

    fn long(alloc: Global, text: Text) -> Result<Name, AllocError>
        ensures { IfOk result (λ name. name ≡ text) }
    {
        Ok(Name {
            kept: Kept::Long(Boxed::new(alloc, text)?),
        })
    }

    /// The bytes.
    pub fn as_slice(&self) -> &[u8]
        ensures { result.now ≡ self.now }
    {
        match &self.kept {
            Kept::Short { count, bytes } => &bytes[..*count as usize],
            Kept::Long(text) => text.get().as_slice(),
        }
    }
}
