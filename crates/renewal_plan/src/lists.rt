// Lists of days, and of pairs of days.
ghost use Rattle.std.specs.Prelude.{◌≡◌, ◌∷◌, ◌++◌, [], length, slice_get, OnOk, OnErr};
ghost use Rattle.std.specs.Option.{option_copied};

use cv_dates::Day;
use eac_base::NoMemory;
use std::alloc::Global;
use std::marker::Model;

/// Days in the order of adding.
#[derive(Debug, Drop)]
pub struct DayList {
    days: Vec<Day>,
}

impl Model for DayList {
    ghost use Rattle.std.specs.Prelude.{List, ℕ};

    ghost Value = { List ℕ };

    ghost view = { λ l. l.days.items };
}

impl DayList {
    /// No days.
    pub fn new(alloc: Global) -> DayList
        ensures { result ≡ [] }
    {
        DayList {
            days: Vec::new(alloc),
        }
    }

    /// Appends the day, or nothing where memory is wanting.
    pub fn push(&mut self, day: Day) -> Result<(), NoMemory>
        ensures pushed { OnOk result (self.new ≡ self.old ++ day ∷ []) }
        ensures kept { OnErr result (self.new ≡ self.old) }
    {
        self.days.push(day)?;
        Ok(())
    }

    /// The number of days.
    pub fn len(&self) -> usize
        ensures { result ≡ length self.now }
    {
        self.days.len()
    }

    /// The day at a place from 0, and none from the length on.
    pub fn get(&self, at: usize) -> Option<&Day>
        ensures { option_copied result ≡ slice_get self.now at }
    {
        self.days.get(at)
    }

    /// All days.
    pub(crate) fn as_slice(&self) -> &[Day]
        ensures { result.now ≡ self.now }
    {
        self.days.as_slice()
    }
}

/// Pairs of days in the order of adding: the first and the last day of an authority's certificate.
#[derive(Debug, Drop)]
pub struct SpanList {
    spans: Vec<(Day, Day)>,
}

impl Model for SpanList {
    ghost use Rattle.std.specs.Prelude.{List, ℕ};

    ghost Value = { List (ℕ × ℕ) };

    ghost view = { λ l. l.spans.items };
}

impl SpanList {
    /// No pairs.
    pub fn new(alloc: Global) -> SpanList
        ensures { result ≡ [] }
    {
        SpanList {
            spans: Vec::new(alloc),
        }
    }

    /// Appends the pair, or nothing where memory is wanting.
    pub fn push(&mut self, span: (Day, Day)) -> Result<(), NoMemory>
        ensures pushed { OnOk result (self.new ≡ self.old ++ span ∷ []) }
        ensures kept { OnErr result (self.new ≡ self.old) }
    {
        self.spans.push(span)?;
        Ok(())
    }

    /// The number of pairs.
    pub fn len(&self) -> usize
        ensures { result ≡ length self.now }
    {
        self.spans.len()
    }

    /// The pair at a place from 0, and none from the length on.
    pub fn get(&self, at: usize) -> Option<&(Day, Day)>
        ensures { option_copied result ≡ slice_get self.now at }
    {
        self.spans.get(at)
    }

    /// All pairs.
    pub(crate) fn as_slice(&self) -> &[(Day, Day)]
        ensures { result.now ≡ self.now }
    {
        self.spans.as_slice()
    }
}

/// Renewals in the order of their days: the day, and the last day of the certificate that is then made.
#[derive(Debug, Drop)]
pub struct RenewalList {
    renewals: Vec<(Day, Day)>,
}

impl Model for RenewalList {
    ghost use Rattle.std.specs.Prelude.{List, ℕ};

    ghost Value = { List (ℕ × ℕ) };

    ghost view = { λ l. l.renewals.items };
}

impl RenewalList {
    /// No renewals.
    pub fn new(alloc: Global) -> RenewalList
        ensures { result ≡ [] }
    {
        RenewalList {
            renewals: Vec::new(alloc),
        }
    }

    /// Appends the renewal, or nothing where memory is wanting.
    pub fn push(&mut self, renewal: (Day, Day)) -> Result<(), NoMemory>
        ensures pushed { OnOk result (self.new ≡ self.old ++ renewal ∷ []) }
        ensures kept { OnErr result (self.new ≡ self.old) }
    {
        self.renewals.push(renewal)?;
        Ok(())
    }

    /// The number of renewals.
    pub fn len(&self) -> usize
        ensures { result ≡ length self.now }
    {
        self.renewals.len()
    }

    /// The renewal at a place from 0, and none from the length on.
    pub fn get(&self, at: usize) -> Option<&(Day, Day)>
        ensures { option_copied result ≡ slice_get self.now at }
    {
        self.renewals.get(at)
    }

    /// All renewals.
    pub fn as_slice(&self) -> &[(Day, Day)]
        ensures { result.now ≡ self.now }
    {
        self.renewals.as_slice()
    }
}
