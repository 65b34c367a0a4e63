#![tactic(auto)]

ghost use Rattle.std.specs.Prelude.{◌≡◌, [], length};
ghost use Rattle.buffers.specs.Padded.{padded};

// Every word and every name entry of the buffers zero.
pub fn clear(words: &mut [u16], names: &mut [u32])
    ensures words_cleared { words.new ≡ padded (length words.old) [] }
    ensures names_cleared { names.new ≡ padded (length names.old) [] }
{
    words.fill(0);
    names.fill(0);
}
