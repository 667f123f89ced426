//! The bytes of live sections in the file.

ghost use Rattle.std.specs.Prelude.{◌≡◌, Some, fold, length, slice_get};
ghost use Rattle.std.specs.List.{enumerate_from, flat_map};
ghost use Rattle.lk_link.specs.Inputs.{all_inputs};
ghost use Rattle.lk_link.specs.Walks.{input_of};
ghost use Rattle.lk_image.specs.Image.{section_stretch};
ghost use Rattle.lk_image.specs.Ready.{AllHaveRoom, HaveRoom, IsReady};
ghost use Rattle.lk_image.specs.Places.{image_length};
ghost use Rattle.lk_image.specs.Stretches.{with_stretch};

use crate::contents::write_content;
use crate::places::{is_in_file, section_place};
use lk_layout::Layout;
use lk_link::InputRef;
use lk_link::link::LinkInput;

/// Writes the bytes of each live section that stands in the file. Looks at each input section once.
pub(crate) fn write_sections(image: &mut [u8], link: &LinkInput, layout: &Layout<'_>)
    requires ready { IsReady link.now layout.now }
    requires room { AllHaveRoom link.now layout.now }
    requires long { length image.now ≡ image_length layout.now }
    ensures written { image.new ≡ fold with_stretch image.old (flat_map (section_stretch link.now layout.now) (enumerate_from 0 (all_inputs link.now.groups))) }
    ensures long { length image.new ≡ length image.old }
{
    let mut number = 0usize;
    for input in link.groups.inputs() {
        write_section(image, link, layout, number, input);
        number += 1;
    }
}

/// Writes the bytes of an input section, with its number, if they stand in the file.
fn write_section(
    image: &mut [u8],
    link: &LinkInput,
    layout: &Layout<'_>,
    number: usize,
    input: InputRef<'_>,
)
    requires ready { IsReady link.now layout.now }
    requires there { slice_get (all_inputs link.now.groups) number ≡ Some (input_of input) }
    requires room { HaveRoom link.now layout.now (number, input_of input) }
    requires long { length image.now ≡ image_length layout.now }
    ensures written { image.new ≡ fold with_stretch image.old (section_stretch link.now layout.now (number, input_of input.entry)) }
    ensures long { length image.new ≡ length image.old }
{
    if !is_in_file(link, layout, number, input) {
        return;
    }
    if input.section.size == 0 {
        return;
    }
    let at = section_place(link, layout, number, input) as usize;
    let bytes = &mut image[at..at + input.section.size as usize];
    write_content(bytes, link, layout, number, input);
}
