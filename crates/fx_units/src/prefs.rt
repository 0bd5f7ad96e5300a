use crate::same::same;
use fx_pixel::{Components, Depth};
use fx_prefs::negotiate;

type Form = (Depth, Components);

const BYTE_RGBA: Form = (Depth::Byte, Components::Rgba);

const BYTE_ALPHA: Form = (Depth::Byte, Components::Alpha);

const SHORT_RGBA: Form = (Depth::Short, Components::Rgba);

const SHORT_ALPHA: Form = (Depth::Short, Components::Alpha);

// What an input is told as.
fn told(form: Form, mask: bool) -> (Depth, Components, bool) {
    (form.0, form.1, mask)
}

// The form of a node with these connected inputs, in a project that would be seen where it is taken.
fn with_inputs(a: Form, b: Form, mask: Form, byte: bool, short: bool, alpha: bool) -> Form {
    let inputs = [told(a, false), told(b, false), told(mask, true)];
    negotiate(&inputs, byte, short, alpha, SHORT_ALPHA)
}

// Two inputs and a mask, and the form where everything is supported: worked by hand.
const MIXES: &[(Form, Form, Form, Form)] = &[
    (BYTE_RGBA, BYTE_RGBA, BYTE_RGBA, BYTE_RGBA),
    (BYTE_RGBA, BYTE_RGBA, SHORT_ALPHA, SHORT_RGBA),
    (BYTE_RGBA, BYTE_ALPHA, BYTE_ALPHA, BYTE_RGBA),
    (BYTE_RGBA, BYTE_ALPHA, SHORT_RGBA, SHORT_RGBA),
    (BYTE_RGBA, SHORT_RGBA, BYTE_ALPHA, SHORT_RGBA),
    (BYTE_RGBA, SHORT_ALPHA, BYTE_ALPHA, SHORT_RGBA),
    (BYTE_ALPHA, BYTE_RGBA, BYTE_ALPHA, BYTE_RGBA),
    (BYTE_ALPHA, BYTE_RGBA, SHORT_ALPHA, SHORT_RGBA),
    (BYTE_ALPHA, BYTE_ALPHA, BYTE_RGBA, BYTE_ALPHA),
    (BYTE_ALPHA, BYTE_ALPHA, SHORT_RGBA, SHORT_ALPHA),
    (BYTE_ALPHA, SHORT_RGBA, BYTE_RGBA, SHORT_RGBA),
    (BYTE_ALPHA, SHORT_ALPHA, BYTE_RGBA, SHORT_ALPHA),
    (SHORT_RGBA, BYTE_RGBA, BYTE_RGBA, SHORT_RGBA),
    (SHORT_RGBA, BYTE_ALPHA, BYTE_ALPHA, SHORT_RGBA),
    (SHORT_RGBA, SHORT_RGBA, BYTE_ALPHA, SHORT_RGBA),
    (SHORT_RGBA, SHORT_ALPHA, BYTE_ALPHA, SHORT_RGBA),
    (SHORT_ALPHA, BYTE_RGBA, BYTE_ALPHA, SHORT_RGBA),
    (SHORT_ALPHA, BYTE_ALPHA, BYTE_RGBA, SHORT_ALPHA),
    (SHORT_ALPHA, SHORT_RGBA, BYTE_ALPHA, SHORT_RGBA),
    (SHORT_ALPHA, SHORT_ALPHA, SHORT_RGBA, SHORT_ALPHA),
];

#[test]
fn inputs_tell_the_form(rt: HostRuntime) {
    for (a, b, mask, form) in MIXES {
        // Each single depth wins, and without Alpha all is RGBA.
        let wanted = [*form, (Depth::Byte, form.1), (Depth::Short, form.1)];
        let depths = [(true, true), (true, false), (false, true)];
        for k in 0..3 {
            let (byte, short) = depths[k];
            same(
                &rt,
                with_inputs(*a, *b, *mask, byte, short, true),
                wanted[k],
            );
            let rgba = (wanted[k].0, Components::Rgba);
            same(&rt, with_inputs(*a, *b, *mask, byte, short, false), rgba);
        }
    }
}

#[test]
fn the_project_tells_where_no_input_does(rt: HostRuntime) {
    for project in [BYTE_RGBA, BYTE_ALPHA, SHORT_RGBA, SHORT_ALPHA] {
        let rgba = (project.0, Components::Rgba);
        same(&rt, negotiate(&[], true, true, true, project), project);
        same(&rt, negotiate(&[], true, true, false, project), rgba);
        same(
            &rt,
            negotiate(&[], true, false, true, project),
            (Depth::Byte, project.1),
        );
        same(
            &rt,
            negotiate(&[], false, true, true, project),
            (Depth::Short, project.1),
        );
        // A mask tells a depth and no components.
        let masked = negotiate(&[told(SHORT_RGBA, true)], true, true, true, project);
        same(&rt, masked, (Depth::Short, project.1));
        let masked = negotiate(&[told(BYTE_ALPHA, true)], true, true, true, project);
        same(&rt, masked, (Depth::Byte, project.1));
    }
    same(
        &rt,
        negotiate(&[], true, true, true, BYTE_ALPHA),
        BYTE_ALPHA,
    );
}

#[test]
fn one_input_tells_the_form(rt: HostRuntime) {
    for form in [BYTE_RGBA, BYTE_ALPHA, SHORT_RGBA, SHORT_ALPHA] {
        for project in [BYTE_RGBA, SHORT_ALPHA] {
            same(
                &rt,
                negotiate(&[told(form, false)], true, true, true, project),
                form,
            );
        }
    }
    let one = negotiate(&[told(SHORT_RGBA, false)], true, false, true, SHORT_ALPHA);
    same(&rt, one, BYTE_RGBA);
}
