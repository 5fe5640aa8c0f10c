//! Fronts.
ghost use Rattle.std.specs.Prelude.{◌≡◌, ◌<◌, ◌≤◌, OnOk, OnErr};

use crate::ends::is_window;
use crate::fault::FrontFault;
use crate::ranges::{DoneRange, is_covered, join};
use std::alloc::{AllocError, Global};
use std::marker::Model;

/// A front is a list of adjacent windows `(lo, hi]` of sequences. Each window is done or not done.
///
/// Windows are appended in order and finished in any order. The low water is the sequence up to which all windows are
/// done. The done windows above the low water are stored as ranges. No range of done windows touches another range or
/// the low water.
pub struct Front {
    start: u64,
    /// The upper bounds of the front's windows, in rising order.
    ends: Vec<u64>,
    /// The low water.
    mark: u64,
    /// The done windows above the low water, in rising order. Adjacent done windows form one range.
    ranges: Vec<DoneRange>,
}

// `Front` implements `Drop` by hand. With `#[derive(Drop)]`, each crate that owns a `Front` would have to prove the
// derived code again (docs/DECISIONS.md, "Letting values go").
impl Drop for Front {
    fn drop(self) {
        let Front {
            start: _,
            ends: _,
            mark: _,
            ranges: _,
        } = self;
    }
}

impl Model for Front {
    ghost use Rattle.std.specs.Prelude.{◌≡◌, ◌-◌};
    ghost use Rattle.range_front.specs.Front.{FrontWithRoom};

    ghost Value = { FrontWithRoom };

    ghost use Rattle.std.specs.Vec.{vec_len, vec_capacity};
    ghost use Rattle.range_front.specs.Ranges.{front_of, IsKept};

    ghost view = { λ f. record {
      front = front_of f.start f.ends.items f.mark f.ranges.items;
      room = vec_capacity f.ranges - vec_len f.ranges;
    } };

    ghost invariant = { λ f. IsKept f.start f.ends.items f.mark f.ranges.items };
}

impl Front {
    ghost use Rattle.range_front.specs.Front.{IsFront, no_windows, end_of, appended, append_answer, finished, finish_answer, is_done, low_water, range_count};
    ghost use Rattle.range_front.specs.Answers.{GivesUnlessMemory};

    /// Creates a front without windows that begins at the sequence `start`.
    pub fn new(alloc: Global, start: u64) -> Front
        ensures value { result.front ≡ no_windows start }
        ensures front { IsFront result.front }
    {
        Front {
            start,
            ends: Vec::new(alloc),
            mark: start,
            ranges: Vec::new(alloc),
        }
    }

    /// Returns the sequence at which the first window begins.
    pub fn start(&self) -> u64
        ensures value { result ≡ self.now.front.start }
        ensures front { IsFront self.now.front }
    {
        self.start
    }

    /// Returns the upper bound of the last window. If the front has no window, the call returns the front's start.
    pub fn end(&self) -> u64
        ensures value { result ≡ end_of self.now.front }
        ensures front { IsFront self.now.front }
    {
        match self.ends.last() {
            Some(end) => *end,
            None => self.start,
        }
    }

    /// Appends the window `(end, hi]` to the front (the list of adjacent windows). The new window is not marked as
    /// done.
    ///
    /// # Errors
    ///
    /// The call checks for errors in this order, and leaves the front unchanged if it fails:
    ///
    /// - `NotRising`: the bound `hi` is not above `end`, the front's end.
    /// - `Memory`: an allocation failed.
    pub fn append(&mut self, hi: u64) -> Result<(), FrontFault>
        ensures answer { GivesUnlessMemory result (append_answer self.old.front hi) }
        ensures ok { OnOk result (self.new.front ≡ appended self.old.front hi) }
        ensures err { OnErr result (self.new.front ≡ self.old.front) }
        ensures room { self.old.room ≤ self.new.room }
        ensures front { IsFront self.new.front }
    {
        let end = self.end();
        if hi <= end {
            return Err(FrontFault::NotRising { end });
        }
        self.ends.push(hi)?;
        Ok(())
    }

    /// Reserves space for one call of `finish`. After `reserve` succeeds, the next call of `finish` does not return
    /// `Memory`, even if windows are appended before that call.
    ///
    /// `reserve` never changes the windows, even if the allocation fails.
    pub fn reserve(&mut self) -> Result<(), AllocError>
        ensures room { OnOk result (0 < self.new.room) }
        ensures kept { self.new.front ≡ self.old.front }
        ensures front { IsFront self.new.front }
    {
        self.ranges.reserve(1)
    }

    /// Marks the window `(lo, hi]` as done.
    ///
    /// # Errors
    ///
    /// The call checks for errors in this order, and leaves the front unchanged if it fails:
    ///
    /// - `NoSuchWindow`: the front has no window `(lo, hi]`.
    /// - `AlreadyDone`: the window is already done.
    /// - `Memory`: no space was reserved, and an allocation failed.
    pub fn finish(&mut self, lo: u64, hi: u64) -> Result<(), FrontFault>
        ensures answer { GivesUnlessMemory result (finish_answer self.old.front lo hi) }
        ensures reserved { 0 < self.old.room → result ≡ finish_answer self.old.front lo hi }
        ensures ok { OnOk result (self.new.front ≡ finished self.old.front lo hi) }
        ensures err { OnErr result (self.new.front ≡ self.old.front) }
        ensures front { IsFront self.new.front }
    {
        if !is_window(self.start, &self.ends, lo, hi) {
            return Err(FrontFault::NoSuchWindow);
        }
        if is_covered(self.mark, &self.ranges, hi) {
            return Err(FrontFault::AlreadyDone);
        }
        join(&mut self.mark, &mut self.ranges, lo, hi)?;
        Ok(())
    }

    /// Whether `(lo, hi]` is a window of the front that is done.
    pub fn is_done(&self, lo: u64, hi: u64) -> bool
        ensures value { result ≡ is_done self.now.front lo hi }
        ensures front { IsFront self.now.front }
    {
        is_window(self.start, &self.ends, lo, hi) && is_covered(self.mark, &self.ranges, hi)
    }

    /// Returns the low water (docs/PROFILE.md, "Windows and low water"). The low water is the end of the longest
    /// prefix of done windows, or the front's start if this prefix is empty.
    pub fn low_water(&self) -> u64
        ensures value { result ≡ low_water self.now.front }
        ensures front { IsFront self.now.front }
    {
        self.mark
    }

    /// Returns the number of ranges of done windows above the low water. Adjacent done windows form one range.
    pub fn range_count(&self) -> usize
        ensures value { result ≡ range_count self.now.front }
        ensures front { IsFront self.now.front }
    {
        self.ranges.as_slice().len()
    }
}
