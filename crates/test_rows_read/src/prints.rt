//! The print of a document, by each way to it, and what it is when parsed again.
use crate::answer::Answer;
use crate::bites::Bites;
use crate::refusal;
use std::alloc::Global;
use toml_edit::{DocumentMut, Mem, ParseOptions, PrintFault, Watched};

/// Writes the print, if an output gets it too, whether this takes one byte at a time, three, or
/// all.
pub fn answer(document: &DocumentMut, out: &mut Answer) {
    match document.print(out.alloc) {
        Ok(print) => written(document, print.as_str(), out),
        Err(_) => out.refuse(),
    }
}

fn written(document: &DocumentMut, print: &str, out: &mut Answer) {
    for most in [1, 3, usize::MAX] {
        match in_bites(out.alloc, document, most) {
            Ok(held) => {
                if held.as_slice() != print.as_bytes() {
                    out.text("another text is written: ");
                }
            }
            Err(_) => out.refuse(),
        }
    }
    out.text(print);
}

fn in_bites(alloc: Global, document: &DocumentMut, most: usize) -> Result<Vec<u8>, PrintFault> {
    let mut held = Vec::new(alloc);
    let bites = Bites {
        held: &mut held,
        most,
    };
    document.print_to(alloc, &mut Watched::new(bites))?;
    Ok(held)
}

/// Writes whether the print, parsed again in the mode of the document, prints as itself.
pub fn settles(document: &DocumentMut, out: &mut Answer) {
    match document.print(out.alloc) {
        Ok(text) => comes_back(text.as_str(), document.is_exact(), out),
        Err(_) => out.refuse(),
    }
}

fn comes_back(text: &str, is_exact: bool, out: &mut Answer) {
    let options = ParseOptions::new().exact(is_exact);
    match DocumentMut::from_str_with(out.alloc, text, options) {
        Ok(document) => is_text(document.print(out.alloc), text, out),
        Err(fault) => refusal::answer(&fault, "settles", out),
    }
}

fn is_text(printed: Mem<String>, text: &str, out: &mut Answer) {
    match printed {
        Ok(printed) => out.truth(printed.as_str() == text),
        Err(_) => out.refuse(),
    }
}
