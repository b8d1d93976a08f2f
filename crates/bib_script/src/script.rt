//! A script, line by line.

ghost use Rattle.std.specs.Prelude.{◌≡◌, ◌++◌, ◌∷◌, [], All, IfOk, OnOk};
ghost use Rattle.bib_data.specs.Depths.{AsksWithDepth};
ghost use Rattle.bib_script.specs.Parting.{words_of};
ghost use Rattle.bib_script.specs.Script.{request_of, said, said_of};

use crate::lines::{split_line, words_of};
use crate::verbs::request_of;
use bib_data::Request;
use bib_text::Seq;
use std::alloc::{AllocError, Global};
use std::marker::Model;

/// What a script says: its requests, in order; for each the number of its line, counted from 1; and the number of the
/// first line that is no request, at which reading ends, if there is one.
#[derive(Debug, Drop)]
pub struct Script {
    pub requests: Seq<Request>,
    pub lines: Seq<usize>,
    pub bad_line: Option<usize>,
}

impl Model for Script {
    ghost use Rattle.bib_script.specs.Script.{Said};

    ghost Value = { Said };

    ghost view = { λ s. record { requests = s.requests; lines = s.lines; bad_line = s.bad_line } };
}

/// A script that says this.
fn said(requests: Vec<Request>, lines: Vec<usize>, bad_line: Option<usize>) -> Script
    ensures { result ≡ said requests.items lines.items bad_line }
{
    Script {
        requests: Seq::from_vec(requests),
        lines: Seq::from_vec(lines),
        bad_line,
    }
}

/// The request of a line, if the line is one.
fn request_on(alloc: Global, line: &[u8]) -> Result<Option<Request>, AllocError>
    ensures { IfOk result (λ asked. asked ≡ request_of (words_of line.now)) }
{
    request_of(alloc, words_of(alloc, line)?.as_slice())
}

/// Adds a request, and the number of its line.
fn push_request(
    requests: &mut Vec<Request>,
    lines: &mut Vec<usize>,
    request: Request,
    number: usize,
) -> Result<(), AllocError>
    ensures requests { OnOk result (requests.new.items ≡ requests.old.items ++ request ∷ []) }
    ensures lines { OnOk result (lines.new.items ≡ lines.old.items ++ number ∷ []) }
{
    requests.push(request)?;
    lines.push(number)?;
    Ok(())
}

/// Reads a script: each line is words separated by tabs, and says an edit, or that a step of several edits begins or
/// ends. An empty line says nothing, but is counted. A carriage return before a line feed is dropped, and the last line
/// may lack its line feed. It takes time in the length of the script, and memory for the requests. (dialect)
pub fn read_script(alloc: Global, script: &[u8]) -> Result<Script, AllocError>
    ensures said { IfOk result (λ said. said ≡ said_of script.now) }
    ensures depths { IfOk result (λ said. All AsksWithDepth said.requests) }
{
    let mut requests = Vec::new(alloc);
    let mut lines = Vec::new(alloc);
    let mut rest = script;
    let mut number: usize = 0;
    'line: while !rest.is_empty() {
        let (line, after) = split_line(rest);
        number += 1;
        if !line.is_empty() {
            match request_on(alloc, line)? {
                Some(request) => push_request(&mut requests, &mut lines, request, number)?,
                None => return Ok(said(requests, lines, Some(number))),
            }
        }
        rest = after;
    }
    Ok(said(requests, lines, None))
}
