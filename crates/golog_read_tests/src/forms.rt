// Tests of what `read_form` gives, and of `print_form`.
ghost use Rattle.std.specs.Prelude.{IsTrue};
ghost use Rattle.golog_form.specs.Printing.{atoms_fit};

use crate::asserting::same;
use golog_form::{Form, print_form, read_form};
use std::alloc::Global;

const ONE: &[u8] = b"(agent (fluent p () bool false) (action a ()) (causes (a) (p) true) \
(main (seq (act a) (test (p)))))";

/// Whether a form is the list of an atom `ab` and an empty list, at their places.
fn has_parts(form: &Form) -> bool {
    let Some([name, empty]) = form.items() else {
        return false;
    };
    form.at() == 1
        && form.atom().is_none()
        && matches!(form, Form::Group { end: 8, .. })
        && is_name(name)
        && empty.at() == 5
        && matches!(empty, Form::Group { end: 7, .. })
}

/// Whether a form is the atom `ab`, at its place.
fn is_name(form: &Form) -> bool {
    let Some(text) = form.atom() else {
        return false;
    };
    form.at() == 2
        && form.items().is_none()
        && matches!(form, Form::Atom { end: 4, .. })
        && text == b"ab".as_slice()
}

/// Whether a text spells such a list.
fn spells_parts(alloc: Global, text: &[u8]) -> bool {
    let read = read_form(alloc, text);
    let answer = match &read {
        Ok(form) => has_parts(form),
        Err(_fault) => false,
    };
    drop(read);
    answer
}

#[test]
fn tells_parts_and_places(rt: HostRuntime) {
    same(&rt, "parts", spells_parts(rt.alloc(), b" (ab ()) "), true);
}

/// Whether the form that a text spells is printed so.
fn is_printed(alloc: Global, text: &[u8], expected: &[u8]) -> bool {
    let read = read_form(alloc, text);
    let answer = match &read {
        Ok(form) => has_text(alloc, form, expected),
        Err(_fault) => false,
    };
    drop(read);
    answer
}

fn has_text(alloc: Global, form: &Form, expected: &[u8]) -> bool
    requires { IsTrue (atoms_fit form.now) }
{
    match print_form(alloc, form) {
        Ok(printed) => printed.as_slice() == expected,
        Err(_fault) => false,
    }
}

#[test]
fn prints_what_reads_back(rt: HostRuntime) {
    let table: [(&[u8], &[u8]); 4] = [
        (ONE, ONE),
        (b" ; c\n a-1 ", b"a-1"),
        (b"( )", b"()"),
        (b"(a(b\t())\n(c)d )", b"(a (b ()) (c) d)"),
    ];
    for (text, expected) in table {
        same(&rt, text, is_printed(rt.alloc(), text, expected), true);
        same(
            &rt,
            expected,
            is_printed(rt.alloc(), expected, expected),
            true,
        );
    }
}
