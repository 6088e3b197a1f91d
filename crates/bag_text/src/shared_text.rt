//! A part of a text that has more than one owner.
ghost use Rattle.std.specs.Prelude.{◌≡◌, IfOk};
ghost use Rattle.std.specs.Rc.{rc_str_bytes};
ghost use Rattle.bag_text.specs.PartOf.{IsPartOf};

use std::alloc::AllocError;
use std::marker::Model;
use std::rc::RcStr;

/// A part of a text that has more than one owner, seen by contracts as its bytes.
#[derive(Drop)]
pub(crate) struct SharedText {
    whole: RcStr,
    start: u32,
    end: u32,
}

impl Model for SharedText {
    ghost use Rattle.std.specs.Prelude.{ℕ, List, ◌≤◌, slice_range};
    ghost use Rattle.std.specs.Rc.{rc_str_bytes};
    ghost use Rattle.std.specs.Str.{IsCharBoundary};

    ghost Value = { List ℕ };

    ghost view = { λ part. slice_range (rc_str_bytes part.whole) part.start part.end };

    ghost invariant = { λ part.
        (part.start ≤ part.end) × IsCharBoundary (rc_str_bytes part.whole) part.start
        × IsCharBoundary (rc_str_bytes part.whole) part.end };
}

impl SharedText {
    /// The part that stands at a place, in bytes, where this text does; `None` where it doesn't, or
    /// ends past 4 GiB.
    pub(crate) fn of(
        whole: &RcStr,
        place: usize,
        text: &str,
    ) -> Result<Option<SharedText>, AllocError>
        ensures { IfOk result (λ part. IsPartOf (rc_str_bytes whole.now) place text.now part) }
    {
        let Some(end) = place.checked_add(text.len()) else {
            return Ok(None);
        };
        let all = whole.as_str();
        if !all.is_char_boundary(place) || !all.is_char_boundary(end) || &all[place..end] != text {
            return Ok(None);
        }
        let (Ok(start), Ok(end)) = (u32::try_from(place), u32::try_from(end)) else {
            return Ok(None);
        };
        let whole = whole.clone()?;
        Ok(Some(SharedText { whole, start, end }))
    }

    /// The part, to look at.
    pub(crate) fn as_str(&self) -> &str
        ensures { result.now ≡ self.now }
    {
        &self.whole.as_str()[self.start as usize..self.end as usize]
    }

    /// The same part once more, which takes no memory.
    pub(crate) fn share(&self) -> Result<SharedText, AllocError>
        ensures { IfOk result (λ part. part ≡ self.now) }
    {
        let whole = self.whole.clone()?;
        Ok(SharedText {
            whole,
            start: self.start,
            end: self.end,
        })
    }
}
