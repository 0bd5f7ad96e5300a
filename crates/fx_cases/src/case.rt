//! A case as its file writes it: docs/cases.md has the form. What isn't of the form is refused, a member that the form
//! doesn't have among it, since a case that is misread would show nothing.
ghost use Rattle.std.specs.Prelude.{◌≤◌, IfOk};

use crate::bytes::bytes_of;
use crate::fault::CaseFault;
use crate::graph::{Members, laid_over};
use fx_base::Name;
use serde_json::Value;
use std::alloc::{AllocError, Global};

// The name of the file that a graph is written to.
const GRAPH: &str = "g.json";

const FILE_MEMBERS: &[&str] = &[
    "about", "words", "again", "graph", "files", "frames", "cases",
];

const CASE_MEMBERS: &[&str] = &[
    "about", "name", "words", "graph", "files", "fails", "pace", "meet", "wanted",
];

const FAILS_MEMBERS: &[&str] = &["fetch", "put", "out", "err"];

const MEET_MEMBERS: &[&str] = &["fetch", "put"];

const WANTED_MEMBERS: &[&str] = &["status", "out", "reports", "err", "files", "calls"];

/// A file of cases.
#[derive(Clone, Copy)]
pub(crate) struct CaseFile<'v> {
    members: &'v Members,
}

/// A case: what stands in it, and what it shares with those beside it.
#[derive(Clone, Copy)]
pub(crate) struct Case<'v> {
    shared: &'v Members,
    own: &'v Members,
}

/// What a run is to leave.
#[derive(Clone, Copy)]
pub(crate) struct Wanted<'v> {
    members: &'v Members,
    frames: Option<&'v Value>,
}

/// The names of a fetch and of a put that wait for each other: of both or of none.
#[derive(Clone, Copy)]
pub(crate) struct Meets<'v> {
    pub(crate) fetch: Option<&'v str>,
    pub(crate) put: Option<&'v str>,
}

/// The numbers of the calls of each kind that fail, from 1.
#[derive(Drop)]
pub(crate) struct Fails {
    pub(crate) fetch: Vec<u64>,
    pub(crate) put: Vec<u64>,
    pub(crate) out: Vec<u64>,
    pub(crate) err: Vec<u64>,
}

fn is_among(name: &str, names: &[&str]) -> bool {
    for one in names {
        if *one == name {
            return true;
        }
    }
    false
}

// The members of an object that has no others than these.
fn members_of<'v>(
    value: &'v Value,
    names: &[&str],
    what: &'static str,
) -> Result<&'v Members, CaseFault> {
    let Value::Object(members) = value else {
        return Err(CaseFault::of(what));
    };
    for name in members.keys() {
        if !is_among(name.as_str(), names) {
            return Err(CaseFault::of(what));
        }
    }
    Ok(members)
}

// The text of a member, if it is there.
fn text_of<'v>(members: &'v Members, name: &'static str) -> Result<Option<&'v str>, CaseFault> {
    match members.get(name) {
        Some(Value::String(text)) => Ok(Some(text.as_str())),
        Some(_) => Err(CaseFault::of(name)),
        None => Ok(None),
    }
}

// The items of a list.
fn items_of<'v>(value: &'v Value, what: &'static str) -> Result<&'v [Value], CaseFault> {
    match value {
        Value::Array(items) => Ok(items.as_slice()),
        _ => Err(CaseFault::of(what)),
    }
}

fn add_word(alloc: Global, item: &Value, words: &mut Vec<String>) -> Result<(), CaseFault> {
    let Value::String(word) = item else {
        return Err(CaseFault::of("words"));
    };
    words.push(String::from_str(alloc, word.as_str())?)?;
    Ok(())
}

// Appends the texts of a list.
fn add_words(alloc: Global, list: &Value, words: &mut Vec<String>) -> Result<(), CaseFault> {
    for item in items_of(list, "words")? {
        add_word(alloc, item, words)?;
    }
    Ok(())
}

// Appends whole numbers from 1 on, where there are some.
fn add_numbers(list: Option<&Value>, numbers: &mut Vec<u64>) -> Result<(), CaseFault> {
    let Some(list) = list else {
        return Ok(());
    };
    for item in items_of(list, "fails")? {
        match item.as_u64() {
            Some(number) if number != 0 => numbers.push(number)?,
            _ => return Err(CaseFault::of("fails")),
        }
    }
    Ok(())
}

// A report, and how many runs one after another are to write it.
fn repeated(item: &Value) -> Result<(u64, &str), CaseFault> {
    let (times, text) = match item {
        Value::String(text) => return Ok((1, text.as_str())),
        Value::Array(pair) => match pair.as_slice() {
            [times, Value::String(text)] => (times.as_u64(), text.as_str()),
            _ => return Err(CaseFault::of("reports")),
        },
        _ => return Err(CaseFault::of("reports")),
    };
    match times {
        Some(times) => Ok((times, text)),
        None => Err(CaseFault::of("reports")),
    }
}

// Appends a file.
fn add_file(
    alloc: Global,
    name: &str,
    bytes: Vec<u8>,
    files: &mut Vec<(Name, Vec<u8>)>,
) -> Result<(), AllocError> {
    let name = Name::of(String::from_str(alloc, name)?);
    match files.push((name, bytes)) {
        Ok(()) => Ok(()),
        Err(_) => Err(AllocError),
    }
}

// Appends the files of a member, if it is there.
fn add_files(
    alloc: Global,
    frames: Option<&Value>,
    value: Option<&Value>,
    files: &mut Vec<(Name, Vec<u8>)>,
) -> Result<(), CaseFault> {
    let members = match value {
        Some(Value::Object(members)) => members,
        Some(_) => return Err(CaseFault::of("files")),
        None => return Ok(()),
    };
    for (name, file) in members.iter() {
        let bytes = bytes_of(alloc, frames, file)?;
        add_file(alloc, name.as_str(), bytes, files)?;
    }
    Ok(())
}

// The text of a graph with a case's members over those of its file.
fn laid_text(alloc: Global, shared: &Value, own: &Value) -> Result<String, CaseFault> {
    match (shared, own) {
        (Value::Object(shared), Value::Object(own)) => {
            let graph = Value::Object(laid_over(alloc, shared, own)?);
            Ok(graph.to_string(alloc)?)
        }
        _ => Err(CaseFault::of("graph")),
    }
}

// The text of the one graph.
fn plain_text(alloc: Global, graph: &Value) -> Result<String, CaseFault> {
    match graph {
        Value::Object(_) => Ok(graph.to_string(alloc)?),
        _ => Err(CaseFault::of("graph")),
    }
}

// Appends the file of a graph, if there is one.
fn add_graph(
    alloc: Global,
    shared: Option<&Value>,
    own: Option<&Value>,
    files: &mut Vec<(Name, Vec<u8>)>,
) -> Result<(), CaseFault> {
    let text = match (shared, own) {
        (None, None) => return Ok(()),
        (Some(one), None) | (None, Some(one)) => plain_text(alloc, one)?,
        (Some(shared), Some(own)) => laid_text(alloc, shared, own)?,
    };
    Ok(add_file(alloc, GRAPH, text.into_bytes(), files)?)
}

fn add_lines(items: &[Value], text: &mut String) -> Result<(), CaseFault> {
    for item in items {
        let Value::String(line) = item else {
            return Err(CaseFault::of("calls"));
        };
        text.push_str(line.as_str())?;
        text.push('\n')?;
    }
    Ok(())
}

impl<'v> CaseFile<'v> {
    /// The file of this text.
    pub(crate) fn of(value: &'v Value) -> Result<CaseFile<'v>, CaseFault> {
        let members = members_of(value, FILE_MEMBERS, "a file of cases")?;
        Ok(CaseFile { members })
    }

    /// Its cases.
    pub(crate) fn cases(self) -> Result<&'v [Value], CaseFault> {
        match self.members.get("cases") {
            Some(cases) => items_of(cases, "cases"),
            None => Err(CaseFault::of("cases")),
        }
    }

    /// One of them.
    pub(crate) fn case(self, own: &'v Value) -> Result<Case<'v>, CaseFault> {
        let own = members_of(own, CASE_MEMBERS, "a case")?;
        Ok(Case {
            shared: self.members,
            own,
        })
    }

    /// The words behind which each case is run once more.
    pub(crate) fn again(self) -> Result<&'v [Value], CaseFault> {
        match self.members.get("again") {
            Some(again) => items_of(again, "again"),
            None => Ok(&[]),
        }
    }
}

impl<'v> Case<'v> {
    /// Its name.
    pub(crate) fn name(self) -> Result<&'v str, CaseFault> {
        text_of(self.own, "name")?.ok_or(CaseFault::of("name"))
    }

    /// Appends its words, and these behind them.
    pub(crate) fn add_words(
        self,
        alloc: Global,
        behind: Option<&Value>,
        words: &mut Vec<String>,
    ) -> Result<(), CaseFault> {
        match (self.own.get("words"), self.shared.get("words")) {
            (Some(own), _) => add_words(alloc, own, words)?,
            (None, Some(shared)) => add_words(alloc, shared, words)?,
            (None, None) => return Err(CaseFault::of("words")),
        }
        match behind {
            Some(behind) => add_words(alloc, behind, words),
            None => Ok(()),
        }
    }

    /// The calls that fail.
    pub(crate) fn fails(self, alloc: Global) -> Result<Fails, CaseFault> {
        let mut fails = Fails {
            fetch: Vec::new(alloc),
            put: Vec::new(alloc),
            out: Vec::new(alloc),
            err: Vec::new(alloc),
        };
        if let Some(value) = self.own.get("fails") {
            fails.add(members_of(value, FAILS_MEMBERS, "fails")?)?;
        }
        Ok(fails)
    }

    /// Whether the first two workers wait for each other before they draw.
    pub(crate) fn holds(self) -> Result<bool, CaseFault> {
        match text_of(self.own, "pace")? {
            Some("hold") => Ok(true),
            Some(_) => Err(CaseFault::of("pace")),
            None => Ok(false),
        }
    }

    /// The names of a fetch and of a put that wait for each other, where there are some.
    pub(crate) fn meets(self) -> Result<Meets<'v>, CaseFault> {
        let Some(meet) = self.own.get("meet") else {
            return Ok(Meets {
                fetch: None,
                put: None,
            });
        };
        let members = members_of(meet, MEET_MEMBERS, "meet")?;
        let fetch = text_of(members, "fetch")?;
        let put = text_of(members, "put")?;
        if fetch.is_none() || put.is_none() {
            return Err(CaseFault::of("meet"));
        }
        Ok(Meets { fetch, put })
    }

    /// Its files. Of two that have a name the case's own comes first.
    pub(crate) fn files(self, alloc: Global) -> Result<Vec<(Name, Vec<u8>)>, CaseFault> {
        let mut files = Vec::new(alloc);
        self.add_all_files(alloc, &mut files)?;
        Ok(files)
    }

    fn add_all_files(
        self,
        alloc: Global,
        files: &mut Vec<(Name, Vec<u8>)>,
    ) -> Result<(), CaseFault> {
        let frames = self.shared.get("frames");
        add_files(alloc, frames, self.own.get("files"), files)?;
        add_graph(
            alloc,
            self.shared.get("graph"),
            self.own.get("graph"),
            files,
        )?;
        add_files(alloc, frames, self.shared.get("files"), files)
    }

    /// What it is to leave.
    pub(crate) fn wanted(self) -> Result<Wanted<'v>, CaseFault> {
        let Some(value) = self.own.get("wanted") else {
            return Err(CaseFault::of("wanted"));
        };
        Ok(Wanted {
            members: members_of(value, WANTED_MEMBERS, "wanted")?,
            frames: self.shared.get("frames"),
        })
    }
}

impl Fails {
    // Appends the numbers of each kind.
    fn add(&mut self, members: &Members) -> Result<(), CaseFault> {
        add_numbers(members.get("fetch"), &mut self.fetch)?;
        add_numbers(members.get("put"), &mut self.put)?;
        add_numbers(members.get("out"), &mut self.out)?;
        add_numbers(members.get("err"), &mut self.err)
    }
}

impl<'v> Wanted<'v> {
    /// The status: 0 where none is said.
    pub(crate) fn status(self) -> Result<u8, CaseFault>
        ensures { IfOk result (λ status. status ≤ 7) }
    {
        let Some(status) = self.members.get("status") else {
            return Ok(0);
        };
        match status.as_u64() {
            Some(status) if status <= 7 => Ok(status as u8),
            _ => Err(CaseFault::of("status")),
        }
    }

    /// The line that is to be written on the stream of errors: nothing where none is said.
    pub(crate) fn line(self) -> Result<&'v str, CaseFault> {
        Ok(text_of(self.members, "err")?.unwrap_or(""))
    }

    /// The report that run `number` of the case is to write, counted from 0: that of this run where the case has one for
    /// each, else the one of all.
    pub(crate) fn report(self, number: u64) -> Result<Option<&'v str>, CaseFault> {
        let Some(reports) = self.members.get("reports") else {
            return text_of(self.members, "out");
        };
        let mut left = number;
        for item in items_of(reports, "reports")? {
            let (times, text) = repeated(item)?;
            if left < times {
                return Ok(Some(text));
            }
            left -= times;
        }
        Err(CaseFault::of("reports"))
    }

    /// A line for each call that is to come, in their order, where that is said.
    pub(crate) fn calls(self, alloc: Global) -> Result<Option<String>, CaseFault> {
        let Some(calls) = self.members.get("calls") else {
            return Ok(None);
        };
        let mut text = String::new(alloc);
        add_lines(items_of(calls, "calls")?, &mut text)?;
        Ok(Some(text))
    }

    /// What is said of each file, by the names of those that are told of.
    pub(crate) fn files(self) -> Result<Option<&'v Members>, CaseFault> {
        match self.members.get("files") {
            Some(Value::Object(files)) => Ok(Some(files)),
            Some(_) => Err(CaseFault::of("files")),
            None => Ok(None),
        }
    }

    /// The bytes that a file is to have: `None` where there is to be none.
    pub(crate) fn bytes(self, alloc: Global, file: &Value) -> Result<Option<Vec<u8>>, CaseFault> {
        match file {
            Value::Null => Ok(None),
            _ => Ok(Some(bytes_of(alloc, self.frames, file)?)),
        }
    }
}
