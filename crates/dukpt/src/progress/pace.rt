//! After which items a line of progress stands.

ghost use Rattle.std.specs.Prelude.{◌≡◌, ◌<◌, IfNone, IfSome, None, Some};
ghost use Rattle.dukpt.specs.inner.Progress.{HasItems, each_of, items_within, IsNextTold, IsNoneTold};

/// How many items there are, where that is known, and so after which of them a line stands.
#[derive(Clone, Copy)]
pub(crate) struct Pace {
    total: Option<u64>,
    each: u64,
    ghost is_each: { each ≡ each_of total },
}

impl Pace {
    /// That of items of which it is not known how many there are: a line stands after each 10,000.
    pub(crate) fn unknown() -> Pace
        ensures { result.total ≡ None }
    {
        Pace {
            total: None,
            each: 10_000,
        }
    }

    /// That of so many items: a line stands after each hundredth part of them, rounded up to whole
    /// items, and after the last.
    pub(crate) fn of(total: u64) -> Pace
        ensures { result.total ≡ Some total }
    {
        Pace {
            total: Some(total),
            each: total.div_ceil(100).max(1),
        }
    }

    /// How many items there are, where that is known.
    pub(crate) fn total(self) -> Option<u64>
        ensures { result ≡ self.total }
    {
        self.total
    }

    /// So many items, but none behind the last.
    pub(crate) fn within(self, done: u64) -> u64
        ensures items { result ≡ items_within self.total done }
        ensures has { HasItems self.total result }
    {
        match self.total {
            Some(total) => done.min(total),
            None => done,
        }
    }

    /// The first item behind so many, of those up to another one, after which a line stands.
    pub(crate) fn next(self, before: u64, done: u64) -> Option<u64>
        requires { HasItems self.total done }
        ensures next { IfSome result (IsNextTold self.total before done) }
        ensures none { IfNone result (IsNoneTold self.total before done) }
    {
        if done <= before {
            return None;
        }
        let left = done - before;
        let until = self.each - before % self.each;
        if until <= left {
            return Some(before + until);
        }
        if self.total == Some(done) {
            return Some(done);
        }
        None
    }
}
