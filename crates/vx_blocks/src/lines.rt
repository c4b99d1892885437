ghost use Rattle.std.specs.Prelude.{◌≡◌, ◌==◌, ℕ, List, position};
ghost use Rattle.std.specs.List.{concat};
ghost use Rattle.vx_blocks.specs.Blocks.{lines, is_end_line};
ghost use Rattle.vx_blocks.specs.Search.{IsSearched, IsFound};

// What a search for an end line came to.
#[derive(Drop)]
pub(crate) enum Search {
    // It begins at `line`, and `end` is behind it.
    Found { line: usize, end: usize },
    // There is none. The last line begins at `line`.
    Missing { line: usize },
}

// The first end line, where the lines before `line` are known to be none, and no byte 10 to stand from there to
// `searched`.
pub(crate) fn find_end_line(bytes: &[u8], mut line: usize, mut searched: usize) -> Search
    requires { IsSearched bytes.now line searched }
    ensures { IsFound bytes.now result }
{
    while let Some(place) = first_break(&bytes[searched..]) {
        let end = searched + place + 1;
        if is_end_line(&bytes[line..end]) {
            return Search::Found { line, end };
        }
        line = end;
        searched = end;
    }
    Search::Missing { line }
}

// The place of the first byte 10.
fn first_break(bytes: &[u8]) -> Option<usize>
    ensures { result ≡ position (λ b. b == 10) bytes.now }
{
    bytes.iter().position(|byte| *byte == b'\n')
}

// Whether the line ends a block.
pub(crate) fn is_end_line(line: &[u8]) -> bool
    ensures { result ≡ is_end_line line.now }
{
    matches!(line, b"." | b".\n" | b".\r" | b".\r\n")
}

/// Cutting loses nothing: the lines, joined, are the input.
pub fn lines_join()
    ensures { (input : List ℕ) → concat (lines input) ≡ input }
{}
