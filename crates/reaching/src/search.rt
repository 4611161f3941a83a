// The search: point after point, over the borders that the marks lent allow; where none are lent, over all. The first third of
// the working list flags the ends reached, the second queues them, the last notes the borders across which a point was first
// reached. The lists are lent and not kept in a struct: what holds of the working list changes on the way, so that a struct would
// spare the contracts nothing.
ghost use Rattle.std.specs.Prelude.{◌≡◌, List, ℕ, ◌*◌, ◌<◌, length};
ghost use Rattle.lending.specs.Lists.{Blank, Kept};
ghost use Rattle.checking.specs.Lent.{Turns};
ghost use Rattle.reaching.specs.Queue.{IsFlagged, Queued, Whole, Gathered};
ghost use Rattle.reaching.specs.Reaching.{allowed, borders_of, Reached, Crossed, Spread};

use checking::other;

// How many ends are reached, and how many points.
#[derive(Clone, Copy)]
pub struct Reach {
    pub ends: usize,
    pub points: usize,
}

// The search from end 0, over the borders that the marks lent allow. What is found of these borders holds whatever marks the
// drawing has. Without borders there is one point, and no end. The queue grows on the
// way, so that the loop has no bound from the beginning.
pub fn spread(turning: &[u16], marks: &[u8], work: &mut [u16]) -> Reach
    requires { Turns turning.now
        × (length turning.now ≡ 2 * borders_of turning.now)
        × Blank (3 * length turning.now) work.old }
    ensures by_index { (ms : List ℕ) (s : ℕ) → length turning.now ≡ 2 * length ms
        → Spread turning.now ms s (allowed marks.now) work.new result.ends result.points }
    ensures kept { Kept (3 * length turning.now) work.old work.new }
{
    let ends = turning.len();
    if ends == 0 {
        return Reach { ends: 0, points: 1 };
    }
    let mut reached = Reach {
        ends: gather(turning, work, 0, 0),
        points: 1,
    };
    let mut head = 0;
    while head < reached.ends {
        let h = work[ends + head];
        reached = cross(turning, marks, work, reached, h);
        head += 1;
    }
    reached
}

// Looks across the border of end h. If that leads to a point that was not reached before, its ends are queued.
fn cross(turning: &[u16], marks: &[u8], work: &mut [u16], reached: Reach, h: u16) -> Reach
    requires { Turns turning.now
        × (length turning.now ≡ 2 * borders_of turning.now)
        × (h < length turning.now)
        × IsFlagged work.old h
        × Reached turning.now (borders_of turning.now) (allowed marks.now) work.old reached.ends reached.points }
    ensures { Crossed turning.now (borders_of turning.now) (allowed marks.now) h
        work.old reached.ends work.new result.ends result.points }
{
    let e = usize::from(h) / 2;
    if !may_cross(marks, e) {
        return reached;
    }
    let beyond = other(h);
    if work[usize::from(beyond)] != 0 {
        return reached;
    }
    work[2 * turning.len() + e] = 1;
    Reach {
        ends: gather(turning, work, reached.ends, beyond),
        points: reached.points + 1,
    }
}

// Whether border e may be crossed: it is marked, or no mark is lent for it.
fn may_cross(marks: &[u8], e: usize) -> bool
    ensures { result ≡ allowed marks.now e }
{
    e >= marks.len() || marks[e] == 1
}

// Flags and queues the ends of h's point, unless they are flagged already. The new length of the queue. The loop goes round a cycle.
fn gather(turning: &[u16], work: &mut [u16], tail: usize, h: u16) -> usize
    requires { Turns turning.now
        × (h < length turning.now)
        × Queued (length turning.now) work.old tail
        × Whole turning.now work.old }
    ensures { Gathered turning.now h work.old tail work.new result }
{
    let ends = turning.len();
    let mut end = tail;
    let mut at = h;
    while work[usize::from(at)] == 0 {
        let i = usize::from(at);
        work[i] = 1;
        work[ends + end] = at;
        end += 1;
        at = turning[i];
    }
    end
}
