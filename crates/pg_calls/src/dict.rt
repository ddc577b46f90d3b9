//! What a dictionary gives of small files. The edge is the sign 1, a 2, b 3 and c 4.
use pg_dict::Dictionary;
use pg_translate::Table;
use std::alloc::{AllocError, Global};
use std::process::Abort;
use std::test::Fail;

/// A line for each word: its weight, its hyphens and the weights of its positions. Then the signs
/// of all of them.
fn push_words(text: &mut String, dictionary: &Dictionary) -> Result<(), AllocError> {
    for i in 0..dictionary.len() {
        let word = dictionary.word(i);
        let (weight, hyphens, weights) = (word.weight(), word.hyphens(), word.weights());
        write!(text, "{weight} {hyphens:?} {weights:?}\n")?;
    }
    write!(text, "{:?}", dictionary.all_signs())?;
    Ok(())
}

/// All these lines as one text.
fn lines_of(alloc: Global, dictionary: &Dictionary) -> Result<String, AllocError> {
    let mut text = String::new(alloc);
    push_words(&mut text, dictionary)?;
    Ok(text)
}

/// The words of a file under a table.
fn words_under(alloc: Global, table: &Table, file: &[u8]) -> Result<String, Fail> {
    let dictionary = Dictionary::read(alloc, table, file)?;
    Ok(lines_of(alloc, &dictionary)?)
}

/// The words of a file under the letters a, b and c.
fn words_of(alloc: Global, file: &[u8]) -> Result<String, Fail> {
    let table = Table::read(alloc, b" 1 1\n a\n b\n c\n")?;
    words_under(alloc, &table, file)
}

/// Files, and what they give.
const FILES: &[(&[u8], &str)] = &[
    (
        b"3ab-c\nab-a\n1abc\n",
        "3 [false, false, false, true, false] [3, 3, 3, 3, 3]\n\
         3 [false, false, false, true, false] [3, 3, 3, 3, 3]\n\
         1 [false, false, false, false, false] [1, 1, 1, 1, 1]\n\
         [1, 2, 3, 4, 1, 1, 2, 3, 2, 1, 1, 2, 3, 4, 1]",
    ),
    (
        b"a-2b*c.a",
        "1 [false, false, true, true, false, false] [1, 1, 2, 1, 1, 1]\n[1, 2, 3, 4, 2, 1]",
    ),
    (
        b"ab-c\nab-a\n",
        "1 [false, false, false, true, false] [1, 1, 1, 1, 1]\n\
         1 [false, false, false, true, false] [1, 1, 1, 1, 1]\n\
         [1, 2, 3, 4, 1, 1, 2, 3, 2, 1]",
    ),
];

/// Compares what a file gives with these lines.
fn compare(rt: &impl Abort, alloc: Global, file: &[u8], words: &str) -> Result<(), Fail> {
    let found = words_of(alloc, file)?;
    assert_eq!(rt; found.as_str(), words);
    Ok(())
}

#[test]
fn words_as_they_were_read(rt: HostRuntime) -> Result<(), Fail> {
    for (file, words) in FILES {
        compare(&rt, rt.alloc(), file, words)?;
    }
    Ok(())
}
