// Answers the requests of the case language on standard input, one after the other.
#![tactic(auto)]

mod calls;

use case_lines::Lines;
use case_parts::parts;
use case_parts::parts::Unread;
use case_requests::requests;
use case_requests::requests::Kind;
use case_words::input::Words;

// The request `solid`.
fn solid(words: &mut Words, out: &mut Lines) -> Result<(), Unread> {
    let mut bytes = [0; 65536];
    let bytes = parts::bytes(words, &mut bytes)?;
    calls::solid(out, bytes);
    Ok(())
}

// Reads and answers the request that the word at hand begins. One that cannot be read has no answer.
fn request(words: &mut Words, out: &mut Lines) -> Result<(), Unread> {
    match parts::meaning(words, requests::begun)? {
        Kind::Op => case_operations::op(words, out),
        Kind::Count => case_answers::count(words, out),
        Kind::Admit => case_answers::admit(words, out),
        Kind::Shown => case_answers::shown(words, out),
        Kind::Read => case_files::read(words, out),
        Kind::Write => case_files::write(words, out),
        Kind::Box => case_files::boxed(words, out),
        Kind::Solid => solid(words, out),
    }
}

// Nothing says that the input ends. So requests are counted, up to a number that no run uses up.
fn serve(words: &mut Words, out: &mut Lines) {
    for _ in 0..u64::MAX {
        if words.look().length == 0 {
            return;
        }
        if request(words, out).is_err() {
            out.unknown();
            requests::resume(words);
        }
    }
}

fn main(rt: HostRuntime) {
    let mut words = Words::new(rt.stdin());
    let mut out = Lines::new(rt.stdout());
    serve(&mut words, &mut out);
}
