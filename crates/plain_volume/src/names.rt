// Which names are lawful.
ghost use Rattle.std.specs.Prelude.{◌≡◌};
ghost use Rattle.std.specs.List.{list_all};
ghost use Rattle.plain_volume.specs.Volume.{is_lawful, is_lawful_byte, is_lawful_text};

use crate::limits::MOST_BYTES_OF_A_NAME;

/// Whether a file may have this name: 1 to 255 bytes, none a control character and none a quotation mark (`"`).
pub fn name_is_lawful(name: &[u8]) -> bool
    ensures { result ≡ is_lawful name.now }
{
    1 <= name.len() && name.len() <= MOST_BYTES_OF_A_NAME && bytes_are_lawful(name)
}

/// Whether a text has at least one byte, and only bytes that a name may have. It may be longer than a name.
pub fn text_is_lawful(text: &[u8]) -> bool
    ensures { result ≡ is_lawful_text text.now }
{
    1 <= text.len() && bytes_are_lawful(text)
}

fn bytes_are_lawful(bytes: &[u8]) -> bool
    ensures { result ≡ list_all is_lawful_byte bytes.now }
{
    bytes.iter().all(|byte| byte_is_lawful(*byte))
}

fn byte_is_lawful(byte: u8) -> bool
    ensures { result ≡ is_lawful_byte byte }
{
    byte >= b' ' && byte != b'"' && byte != 0x7f
}
