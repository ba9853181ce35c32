// The keys of an MD file: the position of a key by its name.
#![tactic(auto)]

ghost use Rattle.std.specs.Prelude.{◌≡◌, ◌≤◌, length};
ghost use Rattle.refusal_rules.specs.Answers.{says};
ghost use Rattle.md_rules.specs.Accepts.{MdOf};
ghost use Rattle.md_part_rules.specs.Keys.{is_named, key_in, key_of};

use fresh_layout::md_of;
use layout_rules::Layout;
use md_rules::MdLayout;
use refusal_rules::Refusal;

// Whether the key at a position, counted from 1, of an accepted file has a name. Names are four bytes, so no key has one of another length.
fn is_named(file: &[u8], name: &[u8], position: u32) -> bool
    requires { (16384 ≤ length file.now) × ((1 ≤ position) × (position ≤ 400)) }
    ensures { result ≡ is_named file.now name.now position }
{
    let at = 4 * (464 + (position - 1) as usize);
    &file[at..at + 4] == name
}

// The first position of the key of an accepted file that has a name. Refused with 7 where the name has another length than four, or no key has it.
fn find_in(file: &[u8], l: MdLayout, name: &[u8]) -> Result<u32, Refusal>
    requires { MdOf l.order file.now l }
    ensures { says result ≡ key_in file.now l name.now }
{
    if name.len() != 4 {
        return Err(Refusal::NoSuch);
    }
    for position in 1..=l.keys {
        if is_named(file, name, position) {
            return Ok(position);
        }
    }
    Err(Refusal::NoSuch)
}

// The first position, counted from 1, of the key that has a name, which is four lent bytes, compared as they are. Refused with 9 where the layout is stale, then
// with 7 where it is of another kind, then with 7 where the name has another length or no key has it.
pub fn find_key(file: &[u8], layout: Layout, name: &[u8]) -> Result<u32, Refusal>
    ensures { says result ≡ key_of file.now layout name.now }
{
    let l = md_of(file, layout)?;
    find_in(file, l, name)
}
