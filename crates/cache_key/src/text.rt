//! A text that keeps the limits of its kind.
ghost use Rattle.std.specs.Prelude.{◌≡◌, IfOk, nat_eq, refl};
ghost use Rattle.std.specs.Ordering.{nat_cmp, as_partial_cmp};
ghost use Rattle.std.proofs.Common.{rules};
ghost use Rattle.std.specs.Cmp.{partial_equiv_from_equiv};
ghost use Rattle.std.specs.Cmp.Rules.{hashing};
ghost use Rattle.std.specs.Hash as fed;
ghost use Rattle.std.specs.Cmp.Lexicographic.{pointwise, slice_cmp, nat_list_eq_equiv, nat_list_cmp_total, texts_po, texts_ties};

use crate::leading::Leading;
use std::alloc::AllocError;
use std::cmp::Ordering;
use std::fmt;
use std::hash::{Hash, Hasher};
use std::marker::{Model, PhantomData};

/// A kind of text, by its limits.
pub trait Limits {
    ghost use Rattle.std.specs.Prelude.{ℕ, List};

    ghost keeps_limits: { List ℕ → Type 0 };
}

/// A text of one kind. Equality and order are those of the bytes.
#[derive(Drop)]
pub struct Text<L: Limits> {
    text: String,
    leading: Leading,
    kind: PhantomData<L>,
}

impl<L: Limits> Model for Text<L> {
    ghost use Rattle.std.specs.Prelude.{ℕ, List};
    ghost use Rattle.std.specs.String.{string_bytes};
    ghost use Rattle.cache_key.specs.Leading.{IsLeadingOf};

    ghost Value = { List ℕ };

    ghost view = { λ made. string_bytes made.text };

    ghost invariant = { λ made. L.keeps_limits (string_bytes made.text) × IsLeadingOf made.leading (string_bytes made.text) };
}

impl<L: Limits> Text<L> {
    ghost use Rattle.std.specs.String.{string_bytes};

    /// Takes the text as it is.
    pub(crate) fn over(text: String) -> Self
        requires { L.keeps_limits (string_bytes text) }
        ensures { result ≡ string_bytes text }
    {
        let leading = Leading::of(text.as_bytes());
        Text {
            text,
            leading,
            kind: PhantomData,
        }
    }

    /// Its text.
    pub fn text(&self) -> &str
        ensures bytes { result.now ≡ self.now }
        ensures limits { L.keeps_limits self.now }
    {
        self.text.as_str()
    }

    /// Makes an equal one.
    ///
    /// Takes memory.
    pub fn copy(&self) -> Result<Self, AllocError>
        ensures { IfOk result (λ copied. copied ≡ self.now) }
    {
        Ok(Text {
            text: self.text.clone()?,
            leading: self.leading,
            kind: PhantomData,
        })
    }
}

impl<L: Limits> fmt::Debug for Text<L> {
    fn fmt<W: fmt::Write>(&self, f: &mut fmt::Formatter<W>) -> fmt::Result {
        write!(f, "{:?}", self.text())
    }
}

impl<L: Limits> PartialEq for Text<L> {
    ghost eq = { pointwise nat_eq };

    ghost laws = { partial_equiv_from_equiv nat_list_eq_equiv };

    fn eq(&self, other: &Self) -> bool {
        self.text() == other.text()
    }
}

impl<L: Limits> Eq for Text<L> {
    ghost laws = { nat_list_eq_equiv };
}

impl<L: Limits> PartialOrd for Text<L> {
    ghost partial_cmp = { as_partial_cmp (slice_cmp nat_cmp) };

    ghost laws = { texts_po };

    fn partial_cmp(&self, other: &Self) -> Option<Ordering> {
        Some(self.cmp(other))
    }
}

impl<L: Limits> Ord for Text<L> {
    ghost cmp = { slice_cmp nat_cmp };

    ghost total = { nat_list_cmp_total };

    ghost matches_partial_cmp = { λ _ _. refl };

    ghost matches_eq = { texts_ties };

    fn cmp(&self, other: &Self) -> Ordering {
        match self.leading.order(&other.leading) {
            Ordering::Equal => self.text().cmp(other.text()),
            told => told,
        }
    }
}

impl<L: Limits> Hash for Text<L> {
    ghost hash_input = { λ made. fed.str made };

    ghost respects_eq = { Prim.search (hashing, rules) };

    fn hash<H: Hasher>(&self, state: &mut H) {
        self.text().hash(state);
    }
}
