//! Frames, threads and whole images.

ghost use Rattle.std.specs.Prelude.{◌≡◌};
ghost use Rattle.image_form.specs.Images.{first_form, image_parts, other_form};
ghost use Rattle.record_form.specs.Sizes.{size_in};

use crate::{Measured, Sizing, list_size};
use field_form::{ByExecutor, ByNumber, Counted};
use image_form::{ByName, ByThread, Image, ImageFrame, ImageThread};
use model_run::{FlowNode, Held, OpenRequest};
use model_values::Binding;

impl Measured for ImageFrame {
    fn size(&self) -> u64 {
        self.env
            .size()
            .saturating_add(self.values.size())
            .saturating_add(9)
    }
}

impl Sizing<ImageThread> for ByThread {
    fn size(_before: &[ImageThread], thread: &ImageThread) -> u64 {
        thread
            .parent
            .size()
            .saturating_add(thread.wait.size())
            .saturating_add(thread.context.size())
            .saturating_add(thread.frames.size())
            .saturating_add(8)
    }
}

impl Sizing<Binding> for ByName {
    fn size(_before: &[Binding], binding: &Binding) -> u64 {
        binding.size()
    }
}

impl Measured for Image {
    fn size(&self) -> u64 {
        first_size(self).saturating_add(others_size(self))
    }
}

fn first_size(image: &Image) -> u64
    ensures { result ≡ size_in first_form (image_parts image.now).0 }
{
    list_size::<Binding, ByName>(&image.bindings)
        .saturating_add(image.cells.size())
        .saturating_add(10)
}

fn others_size(image: &Image) -> u64
    ensures { result ≡ size_in other_form (image_parts image.now).1 }
{
    list_size::<FlowNode, Counted>(&image.nodes)
        .saturating_add(image.log.size())
        .saturating_add(list_size::<OpenRequest, ByNumber>(&image.requests))
        .saturating_add(list_size::<Held, ByExecutor>(&image.held))
        .saturating_add(list_size::<ImageThread, ByThread>(&image.threads))
}
