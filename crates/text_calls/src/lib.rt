// Byte text at the boundary: a byte slice to write in, the number of bytes written out, 0 on a refusal.
#![tactic(auto)]

ghost use Rattle.std.specs.Prelude.{◌≡◌};
ghost use Rattle.byte_text.specs.ByteText.{fmt_bytes_into};
ghost use Rattle.text_calls.specs.TextCalls.{text_out};

use byte_text;
use outs;

#[unsafe(no_mangle)]
pub extern "C" fn lunkaseyo_fmt_bytes(amount: u64, buf: &mut [u8], written: &mut u64) -> u64
    ensures { (result, (written.new, buf.new)) ≡ text_out (fmt_bytes_into amount buf.old) }
{
    let answer = byte_text::fmt_bytes(amount, buf);
    outs::give_value(answer.map(|bytes| bytes as u64), written)
}
