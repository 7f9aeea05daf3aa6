//! What stands between the version and the name of a line.
//!
//! `[ "{" WORDS "} " ] content`, with a content `-`, `@BASE64`, or one part or more with `&` between them. A part is `SIZE DIGEST` and where it
//! stands: in chunks, `COLUMN.SESSION:NUMBER+MORE;..`, perhaps behind the length of a list of parts, `LENGTH*`; or in slots, `PUT SESSION:FIRST-LAST,..`.
//! A name may have spaces, so what comes before it is read byte by byte up to the space that ends it.

ghost use Rattle.std.specs.Prelude.{◌≡◌, Some, option_map};
ghost use Rattle.gq_page.specs.Form.{is_digit, is_letter, is_word, is_end, begun_content, behind_where, behind_run, behind_chunks, next_form, cut_from, cut_word};
ghost use Rattle.gq_page.specs.declared.form.Form.TheVariants.{Begin};

/// What was read of it so far.
#[derive(Clone, Copy, Debug, PartialEq, Eq)]
pub enum Form {
    /// Nothing.
    Begin,
    /// A brace.
    Brace,
    /// And words of whoever put the content.
    Words,
    /// And the other brace.
    Braced,
    /// And a space: a content follows.
    Content,
    /// All of a removal.
    Removed,
    /// A content in the line, of so many letters beyond a multiple of four.
    Inline(u8),
    /// An `&`: a part follows.
    Part,
    /// Digits of its size.
    Size,
    /// So many letters of its digest.
    Digest(u8),
    /// A space: a number follows, of its put, the length of a list, or the column of its chunks.
    Where,
    /// Digits of it, and whether they are a 0.
    WhereDigits(bool),
    /// The same of the column of a run of chunks,
    Column,
    ColumnDigits(bool),
    /// of its session,
    Owner,
    OwnerDigits(bool),
    /// of its first number,
    Chunk,
    ChunkDigits(bool),
    /// and of how many more there are.
    More,
    MoreDigits(bool),
    /// The same of the session of a strand of slots,
    Session,
    SessionDigits(bool),
    /// of the first slot of a run,
    First,
    FirstDigits(bool),
    /// and of the last one.
    Last,
    LastDigits(bool),
}

/// The letters of a digest.
pub const DIGEST: u8 = 43;

fn is_digit(c: u8) -> bool
    ensures { result ≡ is_digit c }
{
    c >= b'0' && c <= b'9'
}

// A letter of base64url.
fn is_letter(c: u8) -> bool
    ensures { result ≡ is_letter c }
{
    is_digit(c) || c >= b'A' && c <= b'Z' || c >= b'a' && c <= b'z' || c == b'-' || c == b'_'
}

// A letter of words.
fn is_word(c: u8) -> bool
    ensures { result ≡ is_word c }
{
    c >= b'!' && c <= b'z'
}

// The first byte of a content.
fn begun_content(c: u8) -> Option<Form>
    ensures { result ≡ begun_content c }
{
    if c == b'-' {
        Some(Form::Removed)
    } else if c == b'@' {
        Some(Form::Inline(0))
    } else if c != b'0' && is_digit(c) {
        Some(Form::Size)
    } else {
        None
    }
}

// A byte behind the number of a put, the length of a list, or a column.
fn behind_where(c: u8) -> Option<Form>
    ensures { result ≡ behind_where c }
{
    if c == b'.' {
        Some(Form::Owner)
    } else if c == b'*' {
        Some(Form::Column)
    } else if c == b' ' {
        Some(Form::Session)
    } else {
        None
    }
}

// A byte behind a run of chunks.
fn behind_chunks(c: u8) -> Option<Form>
    ensures { result ≡ behind_chunks c }
{
    if c == b';' {
        Some(Form::Column)
    } else if c == b'&' {
        Some(Form::Part)
    } else {
        None
    }
}

// A byte behind a run of slots.
fn behind_run(c: u8) -> Option<Form>
    ensures { result ≡ behind_run c }
{
    if c == b',' {
        Some(Form::First)
    } else if c == b';' {
        Some(Form::Session)
    } else if c == b'&' {
        Some(Form::Part)
    } else {
        None
    }
}

impl Form {
    /// Whether a space ends it here.
    pub fn is_end(self) -> bool
        ensures { result ≡ is_end self }
    {
        match self {
            Form::Removed
            | Form::ChunkDigits(_)
            | Form::MoreDigits(_)
            | Form::FirstDigits(_)
            | Form::LastDigits(_) => true,
            Form::Inline(letters) => letters != 1,
            _ => false,
        }
    }

    /// What was read with one byte more.
    pub fn next(self, c: u8) -> Option<Form>
        ensures { result ≡ next_form self c }
    {
        match self {
            Form::Begin => {
                if c == b'{' {
                    Some(Form::Brace)
                } else {
                    begun_content(c)
                }
            }
            Form::Brace => { if is_word(c) { Some(Form::Words) } else { None } }
            Form::Words => {
                if is_word(c) {
                    Some(Form::Words)
                } else if c == b'}' {
                    Some(Form::Braced)
                } else {
                    None
                }
            }
            Form::Braced => { if c == b' ' { Some(Form::Content) } else { None } }
            Form::Content => begun_content(c),
            Form::Removed => None,
            Form::Inline(letters) => {
                if is_letter(c) {
                    Some(Form::Inline(if letters < 3 { letters + 1 } else { 0 }))
                } else {
                    None
                }
            }
            Form::Part => {
                if c != b'0' && is_digit(c) {
                    Some(Form::Size)
                } else {
                    None
                }
            }
            Form::Size => {
                if is_digit(c) {
                    Some(Form::Size)
                } else if c == b' ' {
                    Some(Form::Digest(0))
                } else {
                    None
                }
            }
            Form::Digest(letters) => {
                if letters < DIGEST {
                    if is_letter(c) {
                        Some(Form::Digest(letters + 1))
                    } else {
                        None
                    }
                } else if c == b' ' {
                    Some(Form::Where)
                } else {
                    None
                }
            }
            Form::Where => {
                if is_digit(c) {
                    Some(Form::WhereDigits(c == b'0'))
                } else {
                    None
                }
            }
            Form::WhereDigits(zero) => {
                if !zero && is_digit(c) {
                    Some(Form::WhereDigits(false))
                } else {
                    behind_where(c)
                }
            }
            Form::Column => {
                if is_digit(c) {
                    Some(Form::ColumnDigits(c == b'0'))
                } else {
                    None
                }
            }
            Form::ColumnDigits(zero) => {
                if !zero && is_digit(c) {
                    Some(Form::ColumnDigits(false))
                } else if c == b'.' {
                    Some(Form::Owner)
                } else {
                    None
                }
            }
            Form::Owner => {
                if is_digit(c) {
                    Some(Form::OwnerDigits(c == b'0'))
                } else {
                    None
                }
            }
            Form::OwnerDigits(zero) => {
                if !zero && is_digit(c) {
                    Some(Form::OwnerDigits(false))
                } else if c == b':' {
                    Some(Form::Chunk)
                } else {
                    None
                }
            }
            Form::Chunk => {
                if is_digit(c) {
                    Some(Form::ChunkDigits(c == b'0'))
                } else {
                    None
                }
            }
            Form::ChunkDigits(zero) => {
                if !zero && is_digit(c) {
                    Some(Form::ChunkDigits(false))
                } else if c == b'+' {
                    Some(Form::More)
                } else {
                    behind_chunks(c)
                }
            }
            Form::More => {
                if is_digit(c) {
                    Some(Form::MoreDigits(c == b'0'))
                } else {
                    None
                }
            }
            Form::MoreDigits(zero) => {
                if !zero && is_digit(c) {
                    Some(Form::MoreDigits(false))
                } else {
                    behind_chunks(c)
                }
            }
            Form::Session => {
                if is_digit(c) {
                    Some(Form::SessionDigits(c == b'0'))
                } else {
                    None
                }
            }
            Form::SessionDigits(zero) => {
                if !zero && is_digit(c) {
                    Some(Form::SessionDigits(false))
                } else if c == b':' {
                    Some(Form::First)
                } else {
                    None
                }
            }
            Form::First => {
                if is_digit(c) {
                    Some(Form::FirstDigits(c == b'0'))
                } else {
                    None
                }
            }
            Form::FirstDigits(zero) => {
                if !zero && is_digit(c) {
                    Some(Form::FirstDigits(false))
                } else if c == b'-' {
                    Some(Form::Last)
                } else {
                    behind_run(c)
                }
            }
            Form::Last => {
                if is_digit(c) {
                    Some(Form::LastDigits(c == b'0'))
                } else {
                    None
                }
            }
            Form::LastDigits(zero) => {
                if !zero && is_digit(c) {
                    Some(Form::LastDigits(false))
                } else {
                    behind_run(c)
                }
            }
        }
    }
}

/// What stands before a name, and the name behind the space that ends it; none where no such thing stands there.
pub fn cut_said(text: &[u8]) -> Option<(&[u8], &[u8])>
    ensures { option_map (λ parts. (parts.0.now, parts.1.now)) result ≡ cut_from (Some Begin) text.now }
{
    let mut form = Form::Begin;
    for (i, c) in text.iter().enumerate() {
        if *c == b' ' && form.is_end() {
            return Some((&text[..i], &text[i + 1..]));
        }
        match form.next(*c) {
            Some(next) => form = next,
            None => return None,
        }
    }
    None
}

/// What stands before the first space of a text, and what stands behind it; none where it has none.
pub fn cut_word(text: &[u8]) -> Option<(&[u8], &[u8])>
    ensures { option_map (λ parts. (parts.0.now, parts.1.now)) result ≡ cut_word text.now }
{
    for (i, c) in text.iter().enumerate() {
        if *c == b' ' {
            return Some((&text[..i], &text[i + 1..]));
        }
    }
    None
}
