// Check 4: no two entries of the turning list are equal.
ghost use Rattle.std.specs.Prelude.{◌≡◌, ◌*◌, length};
ghost use Rattle.count.specs.Below.{Decides};
ghost use Rattle.lending.specs.Lists.{Blank, Kept};
ghost use Rattle.checking.specs.Lent.{Ranged, Differ};

// 4: no two entries are equal.
pub fn is_distinct(turning: &[u16], work: &mut [u16]) -> bool
    requires { Ranged turning.now × Blank (3 * length turning.now) work.old }
    ensures decides { Decides result (Differ turning.now) }
    ensures work_unchanged { work.new ≡ work.old }
{
    let differ = flag_entries(turning, work);
    lending::clear(work, turning.len());
    differ
}

// Flags each entry, up to the first that is flagged already. Whether there was none.
#[tactic(auto, using(crate::proofs::Seen::seen_start, crate::proofs::Seen::seen_room, crate::proofs::Seen::seen_twice, crate::proofs::Seen::seen_kept, crate::proofs::Seen::seen_more, crate::proofs::Seen::seen_all))]
fn flag_entries(turning: &[u16], work: &mut [u16]) -> bool
    requires { Ranged turning.now × Blank (3 * length turning.now) work.old }
    ensures decides { Decides result (Differ turning.now) }
    ensures kept { Kept (length turning.now) work.old work.new }
{
    for &entry in turning {
        let h = usize::from(entry);
        if work[h] != 0 {
            return false;
        }
        work[h] = 1;
    }
    true
}
