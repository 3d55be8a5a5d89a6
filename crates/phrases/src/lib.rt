// A line of a name and a number, the line of a refusal, and a text handed over.
#![tactic(auto)]

ghost use Rattle.std.specs.Prelude.{◌≡◌};
ghost use Rattle.text.specs.Text.{Written, spaced};
ghost use Rattle.phrases.specs.Phrases.{line, byte_text, where_text, place_text, refused_text};
ghost use Rattle.phrases.specs.Room.{Room};
ghost use Rattle.phrases.specs.Handed.{IsText, Writes};

use refusals::{Refusal, Told};
use text::Text;

// A line of a name and a number.
pub fn number_line(text: &mut Text<'_>, name: &[u8], number: usize)
    requires { Room text.old.out.now text.old.at (line name.now (spaced number)) }
    ensures same_reference { text.new.out.ghost_name ≡ text.old.out.ghost_name }
    ensures written { Written text.old.out.now text.old.at (line name.now (spaced number)) text.new.out.now text.new.at }
{
    text.put(name);
    text.put_spaced(number);
    text.put(b"\n");
}

// A record's byte, where one is named.
fn put_named(text: &mut Text<'_>, byte: Option<usize>)
    requires { Room text.old.out.now text.old.at (byte_text byte) }
    ensures same_reference { text.new.out.ghost_name ≡ text.old.out.ghost_name }
    ensures written { Written text.old.out.now text.old.at (byte_text byte) text.new.out.now text.new.at }
{
    if let Some(i) = byte {
        text.put(b" byte");
        text.put_spaced(i);
    }
}

// What stands after `at`.
fn put_where(text: &mut Text<'_>, told: Told)
    requires { Room text.old.out.now text.old.at (where_text told) }
    ensures same_reference { text.new.out.ghost_name ≡ text.old.out.ghost_name }
    ensures written { Written text.old.out.now text.old.at (where_text told) text.new.out.now text.new.at }
{
    text.put_spaced(told.place);
    put_named(text, told.byte)
}

// What stands after `refused`.
fn put_place(text: &mut Text<'_>, told: Told)
    requires { Room text.old.out.now text.old.at (place_text told) }
    ensures same_reference { text.new.out.ghost_name ≡ text.old.out.ghost_name }
    ensures written { Written text.old.out.now text.old.at (place_text told) text.new.out.now text.new.at }
{
    text.put_spaced(told.number);
    text.put(b" at");
    put_where(text, told)
}

// "A refused table gives one line".
#[tactic(auto, unfolding(crate::specs::Phrases::refused_text))]
pub fn put_refused(text: &mut Text<'_>, told: Told)
    requires { Room text.old.out.now text.old.at (refused_text told) }
    ensures same_reference { text.new.out.ghost_name ≡ text.old.out.ghost_name }
    ensures written { Written text.old.out.now text.old.at (refused_text told) text.new.out.now text.new.at }
{
    text.put(b"refused");
    put_place(text, told);
    text.put(b"\n")
}

// A text that was made aside, where it has room: how many bytes were written, or the refusal.
pub fn hand_over(text: &[u8], out: &mut [u8]) -> Result<usize, Refusal>
    ensures { Writes (IsText text.now) out.old out.new result }
{
    let len = text.len();
    if out.len() < len {
        return Err(Refusal::Room);
    }
    out[..len].copy_from_slice(text);
    Ok(len)
}
