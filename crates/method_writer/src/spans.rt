// Where a string stands in the pool.
ghost use Rattle.std.specs.Prelude.{◌≡◌, ◌≤◌, length};
ghost use Rattle.method.specs.Kinds.ShortStr.{span_from};

use types::Span;

// The span that the first two words are.
pub(crate) fn span_of(words: &[u64]) -> Span
    requires { 2 ≤ length words.now }
    ensures { result ≡ span_from words.now }
{
    Span::from_words([words[0], words[1]])
}
