// Files of words for the programs: four bytes a word, lowest first.
#![tactic(auto)]

ghost use Rattle.std.specs.Prelude.{◌+◌, ◌*◌, ◌≤◌, ◌≡◌, length, get_or};
ghost use Rattle.io.specs.Counts.{IsPrefixLen};
ghost use Rattle.model.specs.Files.{file_word, file_words};
ghost use Rattle.files.specs.Loads.{Loads};

// Four bytes as a word.
fn word(a: u8, b: u8, c: u8, d: u8) -> u32
    ensures { result ≡ file_word a b c d }
{
    u32::from_le_bytes([a, b, c, d])
}

// The byte so far behind a position, and 0 past the end.
fn byte_at(bytes: &[u8], at: usize, k: usize) -> u8
    requires { at ≤ length bytes.now }
    ensures { result ≡ get_or bytes.now (at + k) 0 }
{
    bytes[at..].get(k).copied().unwrap_or(0)
}

// A word of the file: a cut last word is filled up with zeros.
fn word_at(bytes: &[u8], i: usize) -> u32
    requires { 4 * i ≤ length bytes.now }
    ensures { result ≡ get_or (file_words bytes.now) i 0 }
{
    let at = 4 * i;
    word(
        byte_at(bytes, at, 0),
        byte_at(bytes, at, 1),
        byte_at(bytes, at, 2),
        byte_at(bytes, at, 3),
    )
}

// How many words the file has.
fn words_in(bytes: &[u8]) -> usize
    ensures { result ≡ length (file_words bytes.now) }
{
    bytes.len().div_ceil(4)
}

// The words of a file, as many as there is room for; how many they are. The words after them are as before.
// Kept: it fills a lent buffer and cannot fail, which a `Vec` could (`Loads`, and `IsPrefixLen`, by which callers cut the buffer).
pub fn load_words(bytes: &[u8], words: &mut [u32]) -> usize
    ensures prefix_len { IsPrefixLen result words.new }
    ensures loads { Loads bytes.now words.old result words.new }
{
    let count = words_in(bytes).min(words.len());
    for i in 0..count {
        words[i] = word_at(bytes, i);
    }
    count
}
