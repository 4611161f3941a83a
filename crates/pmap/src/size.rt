// Opening: m and n in two slots.
ghost use Rattle.std.specs.Prelude.{◌≡◌};
ghost use Rattle.answers.specs.Answer.{number_of, told};
ghost use Rattle.answers.specs.declared.given.Size.{Size};
ghost use Rattle.answers.specs.Lent.{leaves, itself};
ghost use Rattle.format.specs.Open.{open_of};

use giving::give_size;

#[unsafe(no_mangle)]
pub extern "C" fn pmap_open(map: &[u8], m: &mut u16, n: &mut u16) -> u8
    ensures value { result ≡ number_of (open_of map.now) }
    ensures m_after { m.new ≡ leaves itself (told (λ (z : Size). z.m) (open_of map.now)) m.old }
    ensures n_after { n.new ≡ leaves itself (told (λ (z : Size). z.n) (open_of map.now)) n.old }
{
    give_size(opening::open(map), m, n)
}
