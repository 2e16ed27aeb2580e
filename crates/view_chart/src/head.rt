ghost use Rattle.std.specs.Prelude.{◌≡◌, ◌&&◌, ◌-◌, ◌*◌, ◌/◌, ◌<◌};
ghost use Rattle.tab_io.specs.Sinks.{Writes};
ghost use Rattle.tab_words.specs.Texts.{texts_below};
ghost use Rattle.view_chart.specs.Heads.{boxes_key, colour_of, columns_key, columns_note, desc_begin, fills_at, fills_of, foot_fill, head_end, head_text, rules_at, stripes, style_begin, style_dark, style_text, svg_begin, title_begin, tone_rules};

use tab_io::{Sink, WriteFault, write_all};
use tab_words::{TextPiece, put_pieces};
use view_lanes::{Head, put_sub, put_title};

// Twelve colours, of six letters each.
const COLOURS: &[u8] = b"93b5fdeab927ace5d9d9a3cc82b24ddabc989f92efe1dd637cae9bb9ccf3c389c8e2d8ab";

// Writes the head of a picture that is so wide in pixels and so tall in units.
pub(crate) fn put_head<K: Sink>(
    sink: &mut K,
    width: u32,
    tall: u32,
    head: &Head,
) -> Result<(), WriteFault>
    ensures { Writes (K.state sink.old) (K.state sink.new) (head_text width tall head.now) result }
{
    put_size(sink, head.picture, width, tall)?;
    put_title(sink, head)?;
    put_desc(sink, head.picture)?;
    put_sub(sink, head)?;
    put_style(sink, head.picture)?;
    put_ground(sink, tall)?;
    put_title(sink, head)?;
    write_all(
        sink,
        b"</text>\n<text x=\"4000\" y=\"5000\" font-size=\"1100\" class=\"dim\">",
    )?;
    put_sub(sink, head)?;
    put_head_end(sink, head)
}

// Writes where it ends, with what boxes and columns are.
fn put_head_end<K: Sink>(sink: &mut K, head: &Head) -> Result<(), WriteFault>
    ensures { Writes (K.state sink.old) (K.state sink.new) (head_end head.now) result }
{
    write_all(sink, b"</text>\n")?;
    put_boxes_key(sink, head)?;
    put_columns_key(sink, head)
}

fn put_boxes_key<K: Sink>(sink: &mut K, head: &Head) -> Result<(), WriteFault>
    ensures { Writes (K.state sink.old) (K.state sink.new)
        (boxes_key (head.now.is_run && head.now.boxes)) result }
{
    write_all(sink, boxes_key(head.is_run && head.boxes))
}

// What boxes are, of a run.
fn boxes_key(some: bool) -> &'static [u8]
    ensures { result.now ≡ boxes_key some }
{
    if some {
        b"<path class=\"key\" d=\"M118300 2100h1600v900h-1600z\"/><text x=\"120300\" y=\"3000\" font-size=\"900\" class=\"dim\">in a slot</text><path class=\"key sh\" d=\"M126500 2460h1600v540h-1600z\"/><text x=\"128500\" y=\"3000\" font-size=\"900\" class=\"dim\">besides its slots (shared)</text>\n"
    } else {
        b""
    }
}

// What columns are, if a lane has them.
fn put_columns_key<K: Sink>(sink: &mut K, head: &Head) -> Result<(), WriteFault>
    ensures { Writes (K.state sink.old) (K.state sink.new)
        (columns_key head.now.columns ((head.now.to - head.now.from) / 200)) result }
{
    if head.columns {
        put_columns_note(sink, head.to.saturating_sub(head.from) / 200)
    } else {
        Ok(())
    }
}

#[tactic(auto, unfolding(crate::specs::Heads::columns_note))]
fn put_columns_note<K: Sink>(sink: &mut K, ticks: u32) -> Result<(), WriteFault>
    ensures { Writes (K.state sink.old) (K.state sink.new) (columns_note ticks) result }
{
    put_pieces(
        sink,
        &[
            TextPiece::Text(
                b"<text x=\"146000\" y=\"5000\" font-size=\"900\" class=\"dim\" text-anchor=\"end\">Lanes of many boxes are columns of ",
            ),
            TextPiece::Number(ticks),
            TextPiece::Text(b" ticks: each is as high as its part of them.</text>\n"),
        ],
    )
}

// Writes where the picture begins.
pub(crate) fn put_size<K: Sink>(
    sink: &mut K,
    picture: u32,
    width: u32,
    tall: u32,
) -> Result<(), WriteFault>
    ensures { Writes (K.state sink.old) (K.state sink.new)
        (svg_begin picture width (width * tall / 150000) tall) result }
{
    put_begin(
        sink,
        picture,
        width,
        u64::from(width) * u64::from(tall) / 150_000,
        tall,
    )
}

#[tactic(auto, unfolding(crate::specs::Heads::svg_begin))]
fn put_begin<K: Sink>(
    sink: &mut K,
    picture: u32,
    width: u32,
    height: u64,
    tall: u32,
) -> Result<(), WriteFault>
    ensures { Writes (K.state sink.old) (K.state sink.new) (svg_begin picture width height tall) result }
{
    put_pieces(
        sink,
        &[
            TextPiece::Text(b"<svg xmlns=\"http://www.w3.org/2000/svg\" width=\""),
            TextPiece::Number(width),
            TextPiece::Text(b"\" height=\""),
            TextPiece::Wide(height),
            TextPiece::Text(b"\" viewBox=\"0 0 150000 "),
            TextPiece::Number(tall),
            TextPiece::Text(b"\" role=\"img\" aria-labelledby=\"t"),
            TextPiece::Number(picture),
            TextPiece::Text(b" d"),
            TextPiece::Number(picture),
            TextPiece::Text(
                b"\" font-family=\"DejaVu Sans,Verdana,Arial,sans-serif\">\n<title id=\"t",
            ),
            TextPiece::Number(picture),
            TextPiece::Text(b"\">"),
        ],
    )
}

// Writes where the words below the title begin.
#[tactic(auto, unfolding(crate::specs::Heads::desc_begin))]
pub(crate) fn put_desc<K: Sink>(sink: &mut K, picture: u32) -> Result<(), WriteFault>
    ensures { Writes (K.state sink.old) (K.state sink.new) (desc_begin picture) result }
{
    put_pieces(
        sink,
        &[
            TextPiece::Text(b"</title>\n<desc id=\"d"),
            TextPiece::Number(picture),
            TextPiece::Text(b"\">"),
        ],
    )
}

// Writes the classes of the words and boxes.
pub(crate) fn put_style<K: Sink>(sink: &mut K, picture: u32) -> Result<(), WriteFault>
    ensures { Writes (K.state sink.old) (K.state sink.new) (style_text picture) result }
{
    put_style_begin(sink)?;
    put_rules(sink, picture)?;
    put_style_dark(sink)?;
    put_fills(sink, picture)?;
    write_all(sink, b"</defs>\n")
}

fn put_style_begin<K: Sink>(sink: &mut K) -> Result<(), WriteFault>
    ensures { Writes (K.state sink.old) (K.state sink.new) style_begin result }
{
    write_all(
        sink,
        b"</desc>\n<style>text{fill:#1d2433}.dim,.dim text{fill:#5d6778}.on text{fill:#1d2433}.label{font-weight:bold}.name{font-family:DejaVu Sans Mono,Menlo,Consolas,monospace}.ground{fill:#ffffff}.lane{fill:#f0f2f6}.grid{stroke:#ffffff;stroke-width:100}.cut{stroke:#ffffff;stroke-width:80}.seam{stroke:#ffffff;stroke-width:25}.round{stroke:#1d2433;stroke-width:140}.sh{fill-opacity:.62}.wait{stroke:#1d2433;stroke-width:180}.late{fill:#b3261e;font-weight:bold}.key{fill:#9aa5b5}g path:hover{stroke:#1d2433;stroke-width:150}",
    )
}

fn put_style_dark<K: Sink>(sink: &mut K) -> Result<(), WriteFault>
    ensures { Writes (K.state sink.old) (K.state sink.new) style_dark result }
{
    write_all(
        sink,
        b"@media(prefers-color-scheme:dark){text{fill:#e4e8f0}.dim,.dim text{fill:#9aa5b5}.ground{fill:#12161f}.lane{fill:#232a38}.grid,.cut,.seam{stroke:#12161f}.round,.wait{stroke:#e4e8f0}.late{fill:#ff8a80}g path:hover{stroke:#e4e8f0}}</style>\n<defs>",
    )
}

// Writes the rules of the tones.
fn put_rules<K: Sink>(sink: &mut K, picture: u32) -> Result<(), WriteFault>
    ensures { Writes (K.state sink.old) (K.state sink.new) (texts_below (rules_at picture) 12) result }
{
    for k in 0..12 {
        put_rules_at(sink, picture, k)?;
    }
    Ok(())
}

fn put_rules_at<K: Sink>(sink: &mut K, picture: u32, k: u32) -> Result<(), WriteFault>
    requires { k < 12 }
    ensures { Writes (K.state sink.old) (K.state sink.new) (rules_at picture k) result }
{
    put_tone_rules(sink, picture, k, colour_of(k))
}

// The letters of a colour.
fn colour_of(k: u32) -> &'static [u8]
    requires { k < 12 }
    ensures { result.now ≡ colour_of k }
{
    let (_, from) = COLOURS.split_at(6 * k as usize);
    let (colour, _) = from.split_at(6);
    colour
}

#[tactic(auto, unfolding(crate::specs::Heads::tone_rules))]
fn put_tone_rules<K: Sink>(
    sink: &mut K,
    picture: u32,
    k: u32,
    colour: &[u8],
) -> Result<(), WriteFault>
    requires { k < 12 }
    ensures { Writes (K.state sink.old) (K.state sink.new) (tone_rules picture k colour.now) result }
{
    put_pieces(
        sink,
        &[
            TextPiece::Text(b".c"),
            TextPiece::Number(k),
            TextPiece::Text(b"{fill:#"),
            TextPiece::Text(colour),
            TextPiece::Text(b"}.c"),
            TextPiece::Number(k + 12),
            TextPiece::Text(b"{fill:url(#f"),
            TextPiece::Number(picture),
            TextPiece::Text(b"-"),
            TextPiece::Number(k),
            TextPiece::Text(b")}.c"),
            TextPiece::Number(k + 24),
            TextPiece::Text(b"{fill:url(#r"),
            TextPiece::Number(picture),
            TextPiece::Text(b"-"),
            TextPiece::Number(k),
            TextPiece::Text(b")}.c"),
            TextPiece::Number(k + 36),
            TextPiece::Text(b"{fill:url(#l"),
            TextPiece::Number(picture),
            TextPiece::Text(b"-"),
            TextPiece::Number(k),
            TextPiece::Text(b")}"),
        ],
    )
}

// Writes what the tones are filled with.
fn put_fills<K: Sink>(sink: &mut K, picture: u32) -> Result<(), WriteFault>
    ensures { Writes (K.state sink.old) (K.state sink.new) (texts_below (fills_at picture) 12) result }
{
    for k in 0..12 {
        put_fills_at(sink, picture, k)?;
    }
    Ok(())
}

fn put_fills_at<K: Sink>(sink: &mut K, picture: u32, k: u32) -> Result<(), WriteFault>
    requires { k < 12 }
    ensures { Writes (K.state sink.old) (K.state sink.new) (fills_at picture k) result }
{
    put_fills_of(sink, picture, k, colour_of(k))
}

fn put_fills_of<K: Sink>(
    sink: &mut K,
    picture: u32,
    k: u32,
    colour: &[u8],
) -> Result<(), WriteFault>
    ensures { Writes (K.state sink.old) (K.state sink.new) (fills_of picture k colour.now) result }
{
    put_foot_fill(sink, picture, k, colour)?;
    put_stripes(sink, b"r", picture, k, colour, 45)?;
    put_stripes(sink, b"l", picture, k, colour, 135)
}

#[tactic(auto, unfolding(crate::specs::Heads::foot_fill))]
fn put_foot_fill<K: Sink>(
    sink: &mut K,
    picture: u32,
    k: u32,
    colour: &[u8],
) -> Result<(), WriteFault>
    ensures { Writes (K.state sink.old) (K.state sink.new) (foot_fill picture k colour.now) result }
{
    put_pieces(
        sink,
        &[
            TextPiece::Text(b"<linearGradient id=\"f"),
            TextPiece::Number(picture),
            TextPiece::Text(b"-"),
            TextPiece::Number(k),
            TextPiece::Text(b"\" x2=\"0\" y2=\"1\"><stop offset=\".78\" stop-color=\"#"),
            TextPiece::Text(colour),
            TextPiece::Text(b"\"/><stop offset=\".78\" stop-color=\"#1d2433\"/></linearGradient>"),
        ],
    )
}

#[tactic(auto, unfolding(crate::specs::Heads::stripes))]
fn put_stripes<'a, K: Sink>(
    sink: &mut K,
    side: &'a [u8],
    picture: u32,
    k: u32,
    colour: &'a [u8],
    turn: u32,
) -> Result<(), WriteFault>
    ensures { Writes (K.state sink.old) (K.state sink.new)
        (stripes side.now picture k colour.now turn) result }
{
    put_pieces(
        sink,
        &[
            TextPiece::Text(b"<pattern id=\""),
            TextPiece::Text(side),
            TextPiece::Number(picture),
            TextPiece::Text(b"-"),
            TextPiece::Number(k),
            TextPiece::Text(
                b"\" width=\"450\" height=\"450\" patternUnits=\"userSpaceOnUse\" patternTransform=\"rotate(",
            ),
            TextPiece::Number(turn),
            TextPiece::Text(b")\"><path fill=\"#"),
            TextPiece::Text(colour),
            TextPiece::Text(
                b"\" d=\"M0 0h450v450h-450z\"/><path fill=\"#1d2433\" fill-opacity=\".35\" d=\"M0 0h110v450h-110z\"/></pattern>",
            ),
        ],
    )
}

// Writes the ground, and where the title begins.
#[tactic(auto, unfolding(crate::specs::Heads::title_begin))]
pub(crate) fn put_ground<K: Sink>(sink: &mut K, tall: u32) -> Result<(), WriteFault>
    ensures { Writes (K.state sink.old) (K.state sink.new) (title_begin tall) result }
{
    put_pieces(
        sink,
        &[
            TextPiece::Text(b"<path class=\"ground\" d=\"M0 0H150000V"),
            TextPiece::Number(tall),
            TextPiece::Text(
                b"H0z\"/>\n<text x=\"4000\" y=\"3000\" font-size=\"1800\" class=\"label\">",
            ),
        ],
    )
}
