// Questions of a text, and the lines of entries and replies.
use board::{Body, Query, Reply};
use bolt_base::{LineCause, Memory};
use bolt_io::{CalmShelf, Shelf};
use live_text::{Question, QuestionList, entry_line, last_line, read_questions, reply_line};
use round_journal::Outcome;
use std::alloc::Global;
use std::test::Fail;
use text_lines::FeedError;

// The questions of a text to a program with one lane.
fn questions_of(alloc: Global, text: &[u8]) -> Result<QuestionList, Fail> {
    let mut shelf = CalmShelf::new(alloc, 7);
    shelf.put_file("questions", text)?;
    let slot = shelf.open("questions")?;
    Ok(read_questions(alloc, &mut shelf, slot, 1)?)
}

#[test]
fn questions_are_read(rt: HostRuntime) -> Result<(), Fail> {
    let alloc = rt.alloc();
    let text = b"value 3\nprefix\nsum\n\n# none\n\tatleast 0 -5 # five\r\ntotal 0\ntotal 1\nvalue";
    let questions = questions_of(alloc, text)?;
    let want = [
        Question::Ask(Query::Value(3)),
        Question::Ask(Query::Prefix),
        Question::Unknown,
        Question::Ask(Query::AtLeast(0, -5)),
        Question::Ask(Query::Total(0)),
        Question::Unknown,
        Question::Unknown,
    ];
    assert!(rt; questions.as_slice() == want.as_slice());
    Ok(())
}

#[test]
fn entries_have_lines(rt: HostRuntime) -> Result<(), Fail> {
    let alloc = rt.alloc();
    let accepted = Outcome::Accepted {
        round: 1,
        added: 0,
        removed: 1,
        edges: 2,
        kept: 6,
        visits: 27,
    };
    let text = entry_line(alloc, 1, 0, 1, &accepted)?;
    let want = b"entry 1 stream 0 batch 1 accepted added 0 removed 1 edges 2 kept 6 visits 27\n";
    assert!(rt; text.as_slice() == want.as_slice());
    let refused = Outcome::Refused {
        line: 7,
        cause: LineCause::Present,
    };
    let text = entry_line(alloc, 2, 1, 3, &refused)?;
    let want = b"entry 2 stream 1 batch 3 refused line 7 present\n";
    assert!(rt; text.as_slice() == want.as_slice());
    Ok(())
}

#[test]
fn replies_have_lines(rt: HostRuntime) -> Result<(), Fail> {
    let alloc = rt.alloc();
    let absent = Reply {
        prefix: 1,
        body: Body::NoVertex { vertices: 3 },
    };
    let text = reply_line(alloc, 0, 1, Some(&absent))?;
    assert!(rt; text.as_slice() == b"reply 0 1 prefix 1 novertex 3\n".as_slice());
    let text = reply_line(alloc, 0, 3, None)?;
    assert!(rt; text.as_slice() == b"reply 0 3 unknown\n".as_slice());
    let total = Reply {
        prefix: 1,
        body: Body::Total(813_375),
    };
    let text = last_line(alloc, 0, &total)?;
    assert!(rt; text.as_slice() == b"last 0 prefix 1 total 813375\n".as_slice());
    Ok(())
}
