// Where double quotes may stand in a line.
ghost use Rattle.std.specs.Prelude.{◌≡◌};
ghost use Rattle.cmdlet_line.specs.Words.{has_bad_quote, is_end, next};

/// Where a byte of a line stands.
#[derive(Clone, Copy, PartialEq)]
pub(crate) enum Place {
    /// Before a word, or behind the last.
    Between,
    /// In a word without quotes.
    Bare,
    /// In a word between two quotes.
    Quoted,
    /// Right behind the second quote of a word.
    Closed,
    /// Behind a quote, or what touches one, that may not stand there.
    Astray,
}

/// Does a double quote stand where none may?
pub(crate) fn has_bad_quote(line: &[u8]) -> bool
    ensures { result ≡ has_bad_quote line.now }
{
    let mut place = Place::Between;
    for byte in line {
        place = next(place, *byte);
    }
    !is_end(place)
}

/// Where the byte behind `byte` stands.
fn next(place: Place, byte: u8) -> Place
    ensures { result ≡ next place byte }
{
    match (place, byte) {
        (Place::Between | Place::Bare | Place::Closed, b' ') => Place::Between,
        (Place::Between, b'"') => Place::Quoted,
        (Place::Between, _) => Place::Bare,
        (Place::Bare, b'"') => Place::Astray,
        (Place::Bare, _) => Place::Bare,
        (Place::Quoted, b'"') => Place::Closed,
        (Place::Quoted, _) => Place::Quoted,
        (Place::Closed | Place::Astray, _) => Place::Astray,
    }
}

/// May a line end here?
fn is_end(place: Place) -> bool
    ensures { result ≡ is_end place }
{
    matches!(place, Place::Between | Place::Bare | Place::Closed)
}
