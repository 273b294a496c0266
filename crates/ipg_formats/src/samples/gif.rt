//! A GIF of one pixel, with comments of one byte.

ghost use Rattle.std.specs.Prelude.{◌≡◌, ◌<◌, ◌≤◌, ◌++◌, OnOk};
ghost use Rattle.ipg_formats.specs.Gif.{gif, header, screen, comment, comments, image, pixels, trailer, one_pixel, whole_screen};

use crate::samples::fields::{self, le16};
use std::alloc::AllocError;

/// The logical screen descriptor, in pixels.
#[derive(Drop)]
struct Screen {
    width: u16,
    height: u16,
    flags: u8,
    background: u8,
    aspect: u8,
}

/// The image descriptor, in pixels from the screen's upper left corner.
#[derive(Drop)]
struct Image {
    left: u16,
    top: u16,
    width: u16,
    height: u16,
    flags: u8,
}

impl Screen {
    /// One pixel, with no table of colours.
    fn one_pixel() -> Self
        ensures { result ≡ one_pixel }
    {
        Screen {
            width: 1,
            height: 1,
            flags: 0,
            background: 0,
            aspect: 0,
        }
    }

    fn write(&self, out: &mut Vec<u8>) -> Result<(), AllocError>
        ensures { OnOk result (out.new.items ≡ out.old.items ++ screen self.now) }
    {
        le16(out, self.width)?;
        le16(out, self.height)?;
        fields::bytes(out, &[self.flags, self.background, self.aspect])
    }
}

impl Image {
    /// The whole screen, with no table of colours.
    fn whole_screen() -> Self
        ensures { result ≡ whole_screen }
    {
        Image {
            left: 0,
            top: 0,
            width: 1,
            height: 1,
            flags: 0,
        }
    }

    fn write(&self, out: &mut Vec<u8>) -> Result<(), AllocError>
        ensures { OnOk result (out.new.items ≡ out.old.items ++ image self.now) }
    {
        fields::bytes(out, b"\x2c")?;
        le16(out, self.left)?;
        le16(out, self.top)?;
        le16(out, self.width)?;
        le16(out, self.height)?;
        fields::bytes(out, &[self.flags])
    }
}

/// Appends comment extensions, each of one byte that counts up.
fn write_comments(out: &mut Vec<u8>, n: u32) -> Result<(), AllocError>
    ensures { OnOk result (out.new.items ≡ out.old.items ++ comments n) }
{
    for i in 0..n {
        fields::bytes(out, &[0x21, 0xfe, 1, (i % 256) as u8, 0])?;
    }
    Ok(())
}

/// Appends a GIF with `n` comments.
pub fn write(out: &mut Vec<u8>, n: u32) -> Result<(), AllocError>
    ensures { OnOk result (out.new.items ≡ out.old.items ++ gif n) }
{
    fields::bytes(out, b"GIF89a")?;
    Screen::one_pixel().write(out)?;
    write_comments(out, n)?;
    Image::whole_screen().write(out)?;
    fields::bytes(out, &[2, 2, 0x44, 1, 0])?;
    fields::bytes(out, b"\x3b")
}
