//! Kinds of bytes that runs are made of.
ghost use Rattle.std.specs.Prelude.{◌≡◌, ◌≤◌, length};
ghost use Rattle.std.specs.List.{prefix_len};
ghost use Rattle.hv_dtlex.specs.Class.{class_has, is_name_byte, is_word_byte};

/// A kind of byte.
#[derive(Clone, Copy)]
pub enum ByteClass {
    Name,
    Word,
    Alphanumeric,
    /// Any byte but a line feed.
    InLine,
}

fn is_name_byte(byte: u8) -> bool
    ensures { result ≡ is_name_byte byte }
{
    byte.is_ascii_alphanumeric() || byte == b'_'
}

fn is_word_byte(byte: u8) -> bool
    ensures { result ≡ is_word_byte byte }
{
    byte.is_ascii_alphanumeric() || b",._+-?#@".as_slice().contains(&byte)
}

fn class_has(class: ByteClass, byte: u8) -> bool
    ensures { result ≡ class_has class byte }
{
    match class {
        ByteClass::Name => is_name_byte(byte),
        ByteClass::Word => is_word_byte(byte),
        ByteClass::Alphanumeric => byte.is_ascii_alphanumeric(),
        ByteClass::InLine => byte != b'\n',
    }
}

/// How many bytes of a class stand in front.
pub fn run_len(text: &[u8], class: ByteClass) -> usize
    ensures run { result ≡ prefix_len (λ b. class_has class b) text.now }
    ensures within { result ≤ length text.now }
{
    for (at, byte) in text.iter().enumerate() {
        if !class_has(class, *byte) {
            return at;
        }
    }
    text.len()
}
