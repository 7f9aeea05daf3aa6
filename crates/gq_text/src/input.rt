//! Lines of the input after the plan.

ghost use Rattle.std.specs.Prelude.{◌≡◌, ◌∷◌, ◌++◌, codes, IfOk, IfSome};
ghost use Rattle.gq_model.specs.Events.{IsIn};
ghost use Rattle.gq_lines.specs.Words.{words_after};
ghost use Rattle.gq_model.specs.declared.events.Line.TheVariants.{Deliver, Write};
ghost use Rattle.gq_text.specs.Input.{one_number_of, two_numbers_of, three_numbers_of, file_content_of, line_from, line_of, server_line_of, event_of, event_of_words};

use gq_desk::Plan;
use gq_lines::{content, first_word, is_end, next_long_word, next_word, number};
use gq_memory::OutOfMemory;
use gq_model::{Event, Line, ServerLine};
use std::alloc::Global;

// The words are one number, and no more.
#[tactic(auto, unfolding(crate::specs::Input::one_number_of))]
pub fn one_number(text: &[u8]) -> Option<u32>
    ensures { result ≡ one_number_of (words_after text.now) }
{
    let (first, rest) = next_word(text)?;
    if !is_end(rest) {
        return None;
    }
    number(first)
}

// The words are two numbers, and no more.
#[tactic(auto, unfolding(crate::specs::Input::two_numbers_of))]
pub fn two_numbers(text: &[u8]) -> Option<(u32, u32)>
    ensures { result ≡ two_numbers_of (words_after text.now) }
{
    let (first, rest) = next_word(text)?;
    let (second, rest) = next_word(rest)?;
    if !is_end(rest) {
        return None;
    }
    Some((number(first)?, number(second)?))
}

// The words are three numbers, and no more.
#[tactic(auto, unfolding(crate::specs::Input::three_numbers_of))]
fn three_numbers(text: &[u8]) -> Option<(u32, u32, u32)>
    ensures { result ≡ three_numbers_of (words_after text.now) }
{
    let (first, rest) = next_word(text)?;
    let (second, rest) = next_word(rest)?;
    let (third, rest) = next_word(rest)?;
    if !is_end(rest) {
        return None;
    }
    Some((number(first)?, number(second)?, number(third)?))
}

// The write of the words after `write`, or a bad line. Only a content takes memory.
#[tactic(auto, unfolding(crate::specs::Input::file_content_of))]
fn write_line(alloc: Global, text: &[u8]) -> Result<Line, OutOfMemory>
    ensures { IfOk result (λ line. line ≡ line_from (file_content_of (words_after text.now))
        (λ (session, volume, file, bytes). Write session volume file bytes)) }
{
    let Some((session, rest)) = next_word(text) else {
        return Ok(Line::Bad);
    };
    let Some((volume, rest)) = next_word(rest) else {
        return Ok(Line::Bad);
    };
    let Some((file, rest)) = next_word(rest) else {
        return Ok(Line::Bad);
    };
    let Some((word, rest)) = next_long_word(rest) else {
        return Ok(Line::Bad);
    };
    if !is_end(rest) {
        return Ok(Line::Bad);
    }
    let (Some(session), Some(volume), Some(file)) = (number(session), number(volume), number(file))
    else {
        return Ok(Line::Bad);
    };
    match content(alloc, word)? {
        Some(bytes) => Ok(Line::Write {
            session,
            volume,
            file,
            bytes,
        }),
        None => Ok(Line::Bad),
    }
}

// What stands behind ` deliver `, where the text begins so. (A pattern is compared in place; `strip_prefix` makes a call.)
#[inline(always)]
fn behind_deliver(text: &[u8]) -> Option<&[u8]>
    ensures { IfSome result (λ word. text.now ≡ codes " deliver " ++ word.now) }
{
    match text {
        [
            b' ',
            b'd',
            b'e',
            b'l',
            b'i',
            b'v',
            b'e',
            b'r',
            b' ',
            word @ ..,
        ] => Some(word),
        _ => None,
    }
}

// The number of the message that a line delivers, of which this text stands behind the tenant's name; none where the line is
// another, or what it has for a number is none.
#[inline(always)]
fn delivery(text: &[u8]) -> Option<u32>
    ensures { IfSome result (λ n. line_of (words_after text.now) ≡ Deliver n) }
{
    let word = behind_deliver(text)?;
    number(word)
}

// The line of the words after a tenant's name. The most frequent kinds are seen without a search for the ends of words.
#[inline(always)]
#[tactic(auto, unfolding(crate::specs::Input::line_of))]
fn line_behind_name(alloc: Global, text: &[u8]) -> Result<Line, OutOfMemory>
    ensures { IfOk result (λ line. line ≡ line_of (words_after text.now)) }
{
    match text {
        b" quorum" => return Ok(Line::Quorum),
        b" volumes" => return Ok(Line::Volumes),
        _ => {}
    }
    if let Some(word) = text.strip_prefix(b" lose ".as_slice()) {
        return match number(word) {
            Some(number) => Ok(Line::Lose { number }),
            None => Ok(Line::Bad),
        };
    }
    line_of_words(alloc, text)
}

// The same, word by word.
#[inline(always)]
#[tactic(auto, unfolding(crate::specs::Input::line_of))]
fn line_of_words(alloc: Global, text: &[u8]) -> Result<Line, OutOfMemory>
    ensures { IfOk result (λ line. line ≡ line_of (words_after text.now)) }
{
    let Some((verb, rest)) = next_word(text) else {
        return Ok(Line::Bad);
    };
    if verb == b"quorum".as_slice() {
        Ok(if is_end(rest) {
            Line::Quorum
        } else {
            Line::Bad
        })
    } else if verb == b"open".as_slice() {
        Ok(match two_numbers(rest) {
            Some((files, blocks)) => Line::NewVolume { files, blocks },
            None => Line::Bad,
        })
    } else if verb == b"volumes".as_slice() {
        Ok(if is_end(rest) {
            Line::Volumes
        } else {
            Line::Bad
        })
    } else if verb == b"write".as_slice() {
        write_line(alloc, rest)
    } else if verb == b"read".as_slice() {
        Ok(match three_numbers(rest) {
            Some((session, volume, file)) => Line::Read {
                session,
                volume,
                file,
            },
            None => Line::Bad,
        })
    } else if verb == b"list".as_slice() {
        Ok(match two_numbers(rest) {
            Some((session, volume)) => Line::List { session, volume },
            None => Line::Bad,
        })
    } else if verb == b"deliver".as_slice() {
        Ok(match one_number(rest) {
            Some(number) => Line::Deliver { number },
            None => Line::Bad,
        })
    } else if verb == b"lose".as_slice() {
        Ok(match one_number(rest) {
            Some(number) => Line::Lose { number },
            None => Line::Bad,
        })
    } else if verb == b"retry".as_slice() {
        Ok(match one_number(rest) {
            Some(session) => Line::Retry { session },
            None => Line::Bad,
        })
    } else if verb == b"abandon".as_slice() {
        Ok(match one_number(rest) {
            Some(session) => Line::Abandon { session },
            None => Line::Bad,
        })
    } else {
        Ok(Line::Bad)
    }
}

// The server line of the words after `server`.
#[inline(always)]
#[tactic(auto, unfolding(crate::specs::Input::server_line_of))]
fn server_line(text: &[u8]) -> ServerLine
    ensures { result ≡ server_line_of (words_after text.now) }
{
    let Some((first, rest)) = next_word(text) else {
        return ServerLine::Bad;
    };
    let Some((way, rest)) = next_word(rest) else {
        return ServerLine::Bad;
    };
    if !is_end(rest) {
        return ServerLine::Bad;
    }
    let Some(server) = number(first) else {
        return ServerLine::Bad;
    };
    if way == b"down".as_slice() {
        ServerLine::Down { server }
    } else if way == b"up".as_slice() {
        ServerLine::Up { server }
    } else if way == b"lost".as_slice() {
        ServerLine::Lost { server }
    } else if way == b"repaired".as_slice() {
        ServerLine::Repaired { server }
    } else {
        ServerLine::Bad
    }
}

/// The event of a line, which has no newline. The bytes before the first space say whose line it is: a tenant's where
/// they are the name of a tenant of the plan, a server line where they are `server`, else nobody's. A line of a tenant
/// or a server line that has no known form is a bad one of its kind. The only error is want of memory, and only a write's
/// content takes any.
pub fn read_line(alloc: Global, line: &[u8], plan: &Plan) -> Result<Event, OutOfMemory>
    ensures event { IfOk result (λ event. event ≡ event_of plan.now line.now) }
    ensures within { IfOk result (λ event. IsIn plan.now event) }
{
    let (first, rest) = first_word(line);
    read_cut_line(alloc, first, rest, plan)
}

/// The event of a line that is cut behind its first word, as [`read_line`] reads it.
#[inline(always)]
#[tactic(auto, unfolding(crate::specs::Input::event_of_words))]
pub fn read_cut_line(
    alloc: Global,
    first: &[u8],
    rest: &[u8],
    plan: &Plan,
) -> Result<Event, OutOfMemory>
    ensures event { IfOk result (λ event. event ≡ event_of_words plan.now (first.now ∷ words_after rest.now)) }
    ensures within { IfOk result (λ event. IsIn plan.now event) }
{
    if first == b"server".as_slice() {
        return Ok(Event::Server {
            line: server_line(rest),
        });
    }
    let Some(tenant) = plan.find_word(first) else {
        return Ok(Event::Stray);
    };
    // (the most frequent line first, and as an event at once: as a line alone it would be copied once more)
    if let Some(number) = delivery(rest) {
        return Ok(Event::Tenant {
            tenant,
            line: Line::Deliver { number },
        });
    }
    Ok(Event::Tenant {
        tenant,
        line: line_behind_name(alloc, rest)?,
    })
}
