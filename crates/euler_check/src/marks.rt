//! Numbers that are given to the darts part by part.

ghost use Rattle.std.specs.Prelude.{◌≡◌, ◌-◌, map};

use std::alloc::{AllocError, Global};
use std::marker::Model;

/// The numbers of darts, of which some may have none yet, in 4 bytes a dart. Contracts see the list of the numbers.
#[derive(Drop)]
pub struct DartNumbers {
    /// 0 for a dart without a number, and else 1 + its number
    entries: Vec<u32>,
}

impl Model for DartNumbers {
    ghost use Rattle.std.specs.Prelude.{ℕ, List, Option, map};
    ghost use Rattle.euler_check.specs.Marks.{number_in};

    ghost Value = { List (Option ℕ) };

    ghost view = { λ n. map number_in n.entries.items };
}

/// Takes 1 from each entry that isn't 0.
fn less_one(entries: &mut [u32])
    ensures { entries.new ≡ map (λ e. e - 1) entries.old }
{
    for entry in entries.iter_mut() {
        *entry = entry.saturating_sub(1);
    }
}

impl DartNumbers {
    ghost use Rattle.std.specs.Prelude.{◌≡◌, ◌<◌, IfOk, None, Some, is_some, length, map, replicate, slice_set, unwrap_or};
    ghost use Rattle.euler_check.specs.Marks.{number_at};

    /// No number for any of so many darts.
    pub fn none(alloc: Global, darts: u32) -> Result<DartNumbers, AllocError>
        ensures { IfOk result (λ numbers. numbers ≡ replicate darts None) }
    {
        Ok(DartNumbers {
            entries: vec![in alloc; 0; darts as usize]?,
        })
    }

    /// Whether a dart has a number.
    pub fn has(&self, dart: u32) -> bool
        requires { dart < length self.now }
        ensures { result ≡ is_some (number_at self.now dart) }
    {
        self.entries[dart as usize] != 0
    }

    /// Gives a dart a number.
    pub fn set(&mut self, dart: u32, number: u32)
        requires within { dart < length self.old }
        requires fits { number < 4294967295 }
        ensures { self.new ≡ slice_set self.old dart (Some number) }
    {
        self.entries[dart as usize] = number + 1;
    }

    /// The number of each dart, and 0 for one without, in the same memory.
    pub fn or_zero(self) -> Vec<u32>
        ensures { result.items ≡ map (λ n. unwrap_or n 0) self }
    {
        let mut entries = self.entries;
        less_one(&mut entries);
        entries
    }
}
