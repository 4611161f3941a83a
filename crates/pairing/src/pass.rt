// The pass, and what it knows of each family of brackets on its way.
//
// What it knows of a family stands in lists of two entries, at the bit that A has for the family: 1 for the round brackets, 0
// for the square ones. So the family is an index and not a jump, which the brackets of a word would make slow. For the same reason
// a bracket is passed by the same stores whether it opens or closes. What a closing puts above the stack is never read; an opening
// is its own mate until its closing is met.
//
// The numbers of both families are read at every position, from 16-bit entries. Read through `top`, whose entries are wider and are
// stored at a changing index, they took a third longer on words where the families alternate; as two numbers, of which one is
// chosen, they were compiled to a jump where a caller does not use those of the round brackets.
ghost use Rattle.std.specs.Prelude.{◌≡◌, [], ◌∷◌, ◌≤◌, length};
ghost use Rattle.answers.specs.Lent.{laid};
ghost use Rattle.words.specs.declared.family.Family.TheVariants.{Round as round, Square as square};
ghost use Rattle.pairing.specs.Paired.{word_at, opened_in, Pairable, mates_of, numbers_of};
ghost use Rattle.pairing.specs.Passing.{lists, Begun, Passable, Passes};

// The stacks of both families, on the way: specs/Passing.antt says what each list holds.
#[derive(Drop)]
pub struct Stacks {
    pub top: [usize; 2],
    pub number: [u16; 2],
    pub reached: [usize; 2],
    pub opened: [u16; 2052],
    pub labels: [u16; 2052],
}

// Fills the lists of a word of n letters, of which `opening` are square brackets that open: the mate of every position, and its
// number by the square and by the round brackets. In `strings` the square brackets begin at bit `bstar`, the round ones at bit `b`.
pub fn pair(
    a: &[u8],
    n: usize,
    strings: &[u8],
    opening: usize,
    bstar: usize,
    b: usize,
    mates: &mut [u16; 4096],
    squares: &mut [u16; 4096],
    rounds: &mut [u16; 4096],
)
    requires { Pairable (word_at a.now n strings.now (bstar ∷ b ∷ [])) (bstar ∷ b ∷ [])
        × (opening ≡ opened_in square (word_at a.now n strings.now (bstar ∷ b ∷ []))) }
    ensures mates_after { mates.new
        ≡ laid (mates_of (word_at a.now n strings.now (bstar ∷ b ∷ []))) mates.old }
    ensures squares_after { squares.new
        ≡ laid (numbers_of square (word_at a.now n strings.now (bstar ∷ b ∷ []))) squares.old }
    ensures rounds_after { rounds.new
        ≡ laid (numbers_of round (word_at a.now n strings.now (bstar ∷ b ∷ []))) rounds.old }
{
    let round = opening + 2;
    let mut stacks = Stacks {
        top: [0, round],
        number: [1; 2],
        reached: [1; 2],
        opened: [0; 2052],
        labels: [0; 2052],
    };
    // Filled in its place: a list of ones in the literal is made elsewhere and copied in, by a `memcpy` that the archives for C do without.
    stacks.labels.fill(1);
    let mut unread = [bstar, b];
    fill(
        a,
        n,
        strings,
        &mut stacks,
        &mut unread,
        mates,
        squares,
        rounds,
    );
}

// The pass: each position gets its numbers, then its bracket is passed. `unread` has where the next bit of each family stands in
// `strings`. Bits are read before the stores: the lists lie as far apart as makes a processor take the one for the other.
fn fill(
    a: &[u8],
    n: usize,
    strings: &[u8],
    stacks: &mut Stacks,
    unread: &mut [usize; 2],
    mates: &mut [u16],
    squares: &mut [u16],
    rounds: &mut [u16],
)
    requires { Pairable (word_at a.now n strings.now unread.old) unread.old
        × Begun (word_at a.now n strings.now unread.old) (lists stacks.old mates.old)
        × (2 ≤ length unread.old) × (4096 ≤ length squares.old) × (4096 ≤ length rounds.old) }
    ensures mates_after { mates.new
        ≡ laid (mates_of (word_at a.now n strings.now unread.old)) mates.old }
    ensures squares_after { squares.new
        ≡ laid (numbers_of square (word_at a.now n strings.now unread.old)) squares.old }
    ensures rounds_after { rounds.new
        ≡ laid (numbers_of round (word_at a.now n strings.now unread.old)) rounds.old }
{
    for p in 0..n {
        let x = bits::bit(a, p);
        let v = bits::bit(strings, unread[x]);
        unread[x] += 1;
        rounds[p] = stacks.number[1];
        squares[p] = stacks.number[0];
        stacks.pass(x, v, p, mates);
    }
}

impl Stacks {
    // Passes the bracket at position p, of the family with the bit x: it opens where v is 0. An opening is put on the stack of its
    // family with the number that it reaches. A closing takes the innermost open bracket off: they are mates.
    #[tactic(auto, using(crate::proofs::Passed::entry_room, crate::proofs::Passed::label_room, crate::proofs::Passed::passes_is))]
    fn pass(&mut self, x: usize, v: usize, p: usize, mates: &mut [u16])
        requires { Passable x v p (lists self.old mates.old) }
        ensures { Passes x v p (lists self.old mates.old) (lists self.new mates.new) }
    {
        let t = self.top[x];
        let k = self.reached[x] + 1;
        let u = t + 1 - v;
        let end = u - v;
        self.opened[t + 1] = p as u16;
        self.labels[t + 1] = k as u16;
        let q = usize::from(self.opened[u]);
        self.number[x] = self.labels[end];
        self.top[x] = end;
        self.reached[x] = k - v;
        mates[q] = p as u16;
        mates[p] = q as u16;
    }
}
