//! The words of a cutting after a split.

ghost use Rattle.std.specs.Prelude.{◌≡◌, ◌<◌, ◌+◌, ◌++◌, length, take, drop, IfOk};
ghost use Rattle.cp_walk.specs.Cutting.{children, word_at};
ghost use Rattle.cp_walk.specs.Members.{words_of};

use crate::word::word_of;
use arrayvec::ArrayVec;
use std::alloc::{AllocError, Global};

fn push_copies(
    words: &mut Vec<ArrayVec<u8, 20>>,
    others: &[ArrayVec<u8, 20>],
) -> Result<(), AllocError>
    ensures { IfOk result (λ _. words_of words.new.items ≡ words_of words.old.items ++ words_of others.now) }
{
    for word in others {
        words.push(word_of(word.as_slice()))?;
    }
    Ok(())
}

fn push_children(
    words: &mut Vec<ArrayVec<u8, 20>>,
    word: &[u8],
    ready: &[u8],
) -> Result<(), AllocError>
    requires { length word.now < 20 }
    ensures { IfOk result (λ _. words_of words.new.items ≡ words_of words.old.items ++ children word.now ready.now) }
{
    for process in ready {
        let mut child = word_of(word);
        child.push(*process);
        words.push(child)?;
    }
    Ok(())
}

/// The words, with a word's children in its place.
pub fn with_children(
    alloc: Global,
    words: &[ArrayVec<u8, 20>],
    at: usize,
    ready: &[u8],
) -> Result<Vec<ArrayVec<u8, 20>>, AllocError>
    requires member { at < length words.now }
    requires short { length (word_at (words_of words.now) at) < 20 }
    ensures { IfOk result (λ v. words_of v.items ≡ take at (words_of words.now) ++ (children (word_at (words_of words.now) at) ready.now ++ drop (at + 1) (words_of words.now))) }
{
    let mut all = Vec::new(alloc);
    push_copies(&mut all, &words[..at])?;
    push_children(&mut all, words[at].as_slice(), ready)?;
    push_copies(&mut all, &words[at + 1..])?;
    Ok(all)
}
