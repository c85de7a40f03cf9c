// The faces of crates utf8 and lossy.
#![tactic(auto)]

ghost use Rattle.std.specs.Prelude.{◌≡◌, length, option_map};
ghost use Rattle.lists.specs.Write.{over};
ghost use Rattle.utf8.specs.Utf8.{valid};
ghost use Rattle.lossy.specs.Lossy.{lossy};
ghost use Rattle.lossy.specs.Write.{within, bytes};
ghost use Rattle.c_utf8.specs.Utf8Face.{conversion};

use replies::Refusal;

// Whether the text is well-formed UTF-8.
#[unsafe(no_mangle)]
pub extern "C" fn zib_is_utf8(text: &[u8]) -> bool
    ensures { result ≡ valid text.now }
{
    utf8::is_utf8(text)
}

// How many bytes the text has with U+FFFD in place of each ill-formed part, into `size`, where that is at most `room`. Refusal 5.
#[unsafe(no_mangle)]
pub extern "C" fn zib_lossy_size(text: &[u8], room: usize, size: &mut usize) -> u32
    ensures { let plan = within room (lossy text.now) in
        (result ≡ (conversion (option_map length plan) size.old).reply) × (size.new ≡ (conversion (option_map length plan) size.old).written) }
{
    let Some(n) = lossy::lossy_size(text, room) else {
        return replies::number(Refusal::NoRoom);
    };
    *size = n;
    0
}

// Writes the text, with U+FFFD in place of each ill-formed part, at the front of `out`, and its length into `written`. Refusal 5.
#[unsafe(no_mangle)]
pub extern "C" fn zib_lossy_into(text: &[u8], out: &mut [u8], written: &mut usize) -> u32
    ensures { let plan = within (length out.old) (lossy text.now) in
        (result ≡ (conversion (option_map length plan) written.old).reply)
        × (written.new ≡ (conversion (option_map length plan) written.old).written) × (out.new ≡ over (bytes plan) out.old) }
{
    let Some(n) = lossy::lossy_into(text, out) else {
        return replies::number(Refusal::NoRoom);
    };
    *written = n;
    0
}
