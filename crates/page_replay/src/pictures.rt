//! The pictures of the areas.
ghost use Rattle.std.specs.Prelude.{◌≡◌, ◌++◌, IfOk, OnOk, string_bytes};
ghost use Rattle.std.specs.List.{AllZip};
ghost use Rattle.page_replay.specs.Pictures.{HasTree, HaveTrees, IsPictureOf, areas_text};
ghost use Rattle.page_replay.specs.Pictures.{area_text, most_vertices, picture_text};

use area_drawings::{Drawing, count_vertices, draw_area, put_drawing};
use intra::AreaInputs;
use ospf_types::config::AreaConfig;
use ospf_types::memory::Memory;
use page_sections::{put_area_heading, put_left_out, put_picture_beginning, put_picture_end};
use std::alloc::Global;

// The greatest number of vertices in a picture. A larger picture could not be read.
const MOST_VERTICES: usize = 200;

/// The graph of an area: its number of vertices, and its drawing, unless it has too many vertices.
#[derive(Drop)]
pub(crate) struct Picture {
    pub(crate) count: usize,
    pub(crate) drawing: Option<Drawing>,
}

/// Returns the pictures of the areas, in their order. `root` is the Router ID of the root.
pub(crate) fn pictures_of(
    alloc: Global,
    root: u32,
    areas: &[AreaInputs<'_>],
) -> Result<Vec<Picture>, Memory>
    requires { HaveTrees areas.now }
    ensures { IfOk result (λ pictures. AllZip (IsPictureOf root) areas.now pictures.items) }
{
    let mut pictures = Vec::new(alloc);
    for area in areas {
        pictures.push(picture_of(alloc, root, area)?)?;
    }
    Ok(pictures)
}

// Returns the picture of an area.
fn picture_of(alloc: Global, root: u32, area: &AreaInputs<'_>) -> Result<Picture, Memory>
    requires { HasTree area.now }
    ensures { IfOk result (IsPictureOf root area.now) }
{
    let count = count_vertices(alloc, area.database, area.tree)?;
    if count > MOST_VERTICES {
        return Ok(Picture {
            count,
            drawing: None,
        });
    }
    let drawing = draw_area(alloc, root, area.database, area.tree)?;
    Ok(Picture {
        count,
        drawing: Some(drawing),
    })
}

/// Appends each area with its picture.
pub(crate) fn put_areas(
    areas: &[AreaConfig],
    pictures: &[Picture],
    text: &mut String,
) -> Result<(), Memory>
    ensures { OnOk result (string_bytes text.new ≡ string_bytes text.old
        ++ areas_text areas.now pictures.now) }
{
    for (area, picture) in areas.iter().zip(pictures) {
        put_area(area, picture, text)?;
    }
    Ok(())
}

// Appends an area with its picture.
fn put_area(area: &AreaConfig, picture: &Picture, text: &mut String) -> Result<(), Memory>
    ensures { OnOk result (string_bytes text.new ≡ string_bytes text.old
        ++ area_text area.now picture.now) }
{
    put_area_heading(area, text)?;
    put_picture(picture, text)
}

// Appends the picture, or the reason why there is none.
fn put_picture(picture: &Picture, text: &mut String) -> Result<(), Memory>
    ensures { OnOk result (string_bytes text.new ≡ string_bytes text.old
        ++ picture_text picture.now) }
{
    match &picture.drawing {
        Some(drawing) => {
            put_picture_beginning(text)?;
            put_drawing(drawing, text)?;
            put_picture_end(text)
        }
        None => put_left_out(picture.count, MOST_VERTICES, text),
    }
}
