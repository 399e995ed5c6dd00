// The words of bytes: four to a word, the lowest first; 1 to 3 spare bytes are left off.
#![tactic(auto)]

ghost use Rattle.std.specs.Prelude.{◌≡◌, ◌≤◌, length, take};
ghost use Rattle.words.specs.Overlay.{overlay};
ghost use Rattle.encoding.specs.Bytes.{bytes_word, bytes_words};

use words::list::put;

// The word of four bytes.
#[tactic(auto, unfolding(crate::specs::Bytes::bytes_word))]
pub fn word_of_bytes(a: u8, b: u8, c: u8, d: u8) -> u32
    ensures { result ≡ bytes_word a b c d }
{
    u32::from_le_bytes([a, b, c, d])
}

// Lays the words of bytes over the front of a list, those that fit, and answers how many there are.
pub fn words_of_bytes(bytes: &[u8], out: &mut [u32]) -> usize
    ensures count { result ≡ length (bytes_words bytes.now) }
    ensures words { out.new ≡ overlay out.old 0 (bytes_words bytes.now) }
{
    let (quads, _) = bytes.as_chunks::<4>();
    for (i, &[a, b, c, d]) in quads.iter().enumerate() {
        put(out, i, word_of_bytes(a, b, c, d));
    }
    quads.len()
}

// The same where they all fit: they are then the front of the list.
// Another function, as words_of_bytes asks for no room: a clause under a condition would be no plainer.
pub fn front_words(bytes: &[u8], out: &mut [u32]) -> usize
    requires { length (bytes_words bytes.now) ≤ length out.old }
    ensures words { take result out.new ≡ bytes_words bytes.now }
    ensures fits { result ≤ length out.new }
    ensures count { result ≡ length (take result out.new) }
{
    words_of_bytes(bytes, out)
}
