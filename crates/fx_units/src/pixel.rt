use crate::same::same;
use fx_pixel::{Components, Depth, Pixel};

#[test]
fn depths_and_components_have_their_numbers(rt: HostRuntime) {
    same(&rt, (Depth::Byte.greatest(), Depth::Byte.size()), (255, 1));
    same(
        &rt,
        (Depth::Short.greatest(), Depth::Short.size()),
        (65535, 2),
    );
    same(
        &rt,
        (Components::Rgba.count(), Components::Alpha.count()),
        (4, 1),
    );
}

#[test]
fn pixels_are_converted(rt: HostRuntime) {
    let none = Pixel::Rgba {
        r: 0,
        g: 0,
        b: 0,
        a: 0,
    };
    same(&rt, Pixel::zero(Components::Rgba), none);
    same(&rt, Pixel::zero(Components::Alpha), Pixel::Alpha { a: 0 });
    let grey = Pixel::Alpha { a: 128 };
    let repeated = Pixel::Rgba {
        r: 32896,
        g: 32896,
        b: 32896,
        a: 32896,
    };
    same(
        &rt,
        grey.convert(Depth::Byte, Depth::Short, Components::Rgba),
        repeated,
    );
    // 128.49.. of 255 goes down, and 128.50.. up.
    for (short, byte) in [
        (0, 0),
        (128, 0),
        (129, 1),
        (33023, 128),
        (33024, 128),
        (33025, 129),
        (65535, 255),
    ] {
        let pixel = Pixel::Rgba {
            r: 0,
            g: 0,
            b: 0,
            a: short,
        };
        same(
            &rt,
            pixel.convert(Depth::Short, Depth::Byte, Components::Alpha),
            Pixel::Alpha { a: byte },
        );
    }
}
