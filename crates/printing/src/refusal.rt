// The line of a refusal.
ghost use Rattle.std.specs.Prelude.{◌≡◌, ◌≤◌, length};
ghost use Rattle.answers.specs.Lent.{laid};
ghost use Rattle.text.specs.Listing.{refused_line};

use crate::page::Page;

// The line of refusal k, which may be any number. Its length.
pub fn refused(k: u8, out: &mut [u8]) -> usize
    requires { 13 ≤ length out.old }
    ensures value { result ≡ length (refused_line k) }
    ensures out_after { out.new ≡ laid (refused_line k) out.old }
{
    let mut page = Page::new(out);
    page.text(b"refused ");
    page.number(usize::from(k), b'\n');
    page.at
}
