// Blocks, of a chip's page or of a disk, that hold a text.
ghost use Rattle.std.specs.Prelude.{◌≡◌, codes};
ghost use Rattle.std.specs.Str.{IsUtf8, trim_end};
ghost use Rattle.bench.specs.Texts.{in_block};

// The bytes of a block.
pub const BLOCK: usize = 512;

// A text as a block: as much of it as there is room for, and spaces.
pub fn block_of(text: &str) -> [u8; BLOCK]
    ensures { result ≡ in_block text.now }
{
    let mut bytes = [b' '; BLOCK];
    let len = BLOCK.min(text.len());
    bytes[..len].copy_from_slice(&text.as_bytes()[..len]);
    bytes
}

// The text that such a block holds, without the spaces.
pub fn text_in(bytes: &[u8]) -> &str
    ensures text { IsUtf8 bytes.now → result.now ≡ trim_end bytes.now }
    ensures none { ¬ IsUtf8 bytes.now → result.now ≡ codes "no text" }
{
    std::str::from_utf8(bytes).map_or("no text", str::trim_end)
}
