//! Templates: texts in which words in braces are fields.
ghost use Rattle.std.specs.Prelude.{◌≡◌, ◌+◌, ◌<◌, ◌++◌, length, drop};
ghost use Rattle.std.specs.List.{list_all};
ghost use Rattle.gm_caption.specs.Templates.{field_at, first_part, further, is_allowed, is_template, parts_from, listed};

/// A field of a template.
#[derive(Clone, Copy, Debug, PartialEq, Eq)]
pub enum Field {
    /// The side to move.
    Side,
    /// What it reaches, as a verb.
    Value,
    /// The number of moves that it makes.
    Moves,
    /// The number of moves of both sides.
    Plies,
    /// The number of the puzzle on the sheet.
    Number,
    /// The title of the game.
    Game,
}

/// A part of a template.
#[derive(Clone, Copy, Debug, PartialEq, Eq)]
pub enum Part {
    Byte(u8),
    Field(Field),
}

/// Tests whether each brace of a text belongs to a field.
pub fn is_template(text: &[u8]) -> bool
    ensures { result ≡ is_template text.now }
{
    let mut skip = 0;
    for at in 0..text.len() {
        let (part, next) = next_part(text, at, skip);
        if !may_have(part) {
            return false;
        }
        skip = next;
    }
    true
}

// Tests whether a template may have this part, if it is one.
fn may_have(part: Option<Part>) -> bool
    ensures { result ≡ list_all is_allowed (listed part) }
{
    match part {
        Some(Part::Byte(b'{' | b'}')) => false,
        Some(_) | None => true,
    }
}

/// Returns the part that begins at this place, and how many bytes after that place belong to it. If `skip` is not 0, that many bytes
/// from there on belong to an earlier part, and none begins.
pub(crate) fn next_part(text: &[u8], at: usize, skip: usize) -> (Option<Part>, usize)
    requires { at < length text.now }
    ensures { parts_from skip (drop at text.now) ≡ listed result.0 ++ parts_from result.1 (drop (at + 1) text.now) }
{
    if skip > 0 {
        return (None, skip - 1);
    }
    let part = part_at(&text[at..], text[at]);
    (Some(part), further(part))
}

// Returns the part with which a text begins, whose first byte is given.
fn part_at(rest: &[u8], first: u8) -> Part
    ensures { result ≡ first_part first rest.now }
{
    match field_at(rest) {
        Some(field) => Part::Field(field),
        None => Part::Byte(first),
    }
}

// Returns the field with which a text begins, if it does with one.
fn field_at(rest: &[u8]) -> Option<Field>
    ensures { result ≡ field_at rest.now }
{
    if rest.starts_with(b"{side}") {
        Some(Field::Side)
    } else if rest.starts_with(b"{value}") {
        Some(Field::Value)
    } else if rest.starts_with(b"{moves}") {
        Some(Field::Moves)
    } else if rest.starts_with(b"{plies}") {
        Some(Field::Plies)
    } else if rest.starts_with(b"{number}") {
        Some(Field::Number)
    } else if rest.starts_with(b"{game}") {
        Some(Field::Game)
    } else {
        None
    }
}

// Returns how many bytes a part has after its first.
fn further(part: Part) -> usize
    ensures { result ≡ further part }
{
    match part {
        Part::Byte(_) => 0,
        Part::Field(Field::Side | Field::Game) => 5,
        Part::Field(Field::Value | Field::Moves | Field::Plies) => 6,
        Part::Field(Field::Number) => 7,
    }
}
