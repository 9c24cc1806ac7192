// The head of a picture.
ghost use Rattle.std.specs.Prelude.{◌+◌, ◌≤◌, length};
ghost use Rattle.text_hex.specs.Added.{Room, Added};
ghost use Rattle.svg_text.specs.Texts.{style_text, conditions_text, bytes_text, legend_text};
ghost use Rattle.svg_text.specs.Picture.{number_text, opening_text, head_text};

use text_hex::text::Text;
use text_tables::decimal::push_digits;

// A coordinate or a count. It stays a function over a text, not a Display: no clause says what a Formatter
// was given, and the picture is proved byte for byte.
pub fn push_number(text: &mut Text, n: u32)
    requires { Room 6 text.old }
    ensures { Added text.old (number_text n) 6 text.new }
{
    push_digits(text, 6, u64::from(n));
}

#[tactic(auto, unfolding(crate::specs::Texts::style_text))]
fn push_style(text: &mut Text)
    requires { Room 253 text.old }
    ensures { Added text.old style_text 253 text.new }
{
    text.push_text(
        b"<style>\n\
          path{fill:none;stroke:#1f2937;stroke-width:1.5}\n\
          rect{stroke:#1f2937}\n\
          .a{fill:#bfdbfe}\n\
          .w{fill:#bbf7d0}\n\
          .r{fill:#fde68a}\n\
          .c{fill:#e5e7eb}\n\
          .h{fill:url(#h);stroke:#9ca3af}\n\
          .g{stroke:#9ca3af}\n\
          .p{fill:#fff;stroke:none}\n\
          .n{text-anchor:start}\n\
          </style>\n",
    );
}

#[tactic(auto, unfolding(crate::specs::Texts::conditions_text))]
fn push_conditions(text: &mut Text)
    requires { Room 665 text.old }
    ensures { Added text.old conditions_text 665 text.new }
{
    text.push_text(
        b"<defs>\n\
          <pattern id=\"h\" width=\"6\" height=\"6\" patternUnits=\"userSpaceOnUse\">\
          <rect class=\"p\" width=\"6\" height=\"6\"/><path class=\"g\" d=\"M0 6l6 -6\"/></pattern>\n\
          <g id=\"l\" class=\"n\"><text x=\"16\" y=\"26\">SCL</text><text x=\"16\" y=\"61\">SDA</text>\
          <text x=\"16\" y=\"96\">bus</text></g>\n\
          <g id=\"S\"><path d=\"M0 10h18v20h6M0 45h12v20h12\"/>\
          <rect class=\"c\" y=\"78\" width=\"24\" height=\"26\"/><text x=\"12\" y=\"96\">S</text></g>\n\
          <g id=\"R\"><path d=\"M0 30h3v-20h15v20h6M0 45h10v20h14\"/>\
          <rect class=\"c\" y=\"78\" width=\"24\" height=\"26\"/><text x=\"12\" y=\"96\">Sr</text></g>\n\
          <g id=\"P\"><path d=\"M0 30h6v-20h18M0 65h14v-20h10\"/>\
          <rect class=\"c\" y=\"78\" width=\"24\" height=\"26\"/><text x=\"12\" y=\"96\">P</text></g>\n",
    );
}

#[tactic(auto, unfolding(crate::specs::Texts::bytes_text))]
fn push_bytes(text: &mut Text)
    requires { Room 558 text.old }
    ensures { Added text.old bytes_text 558 text.new }
{
    text.push_text(
        b"<path id=\"k\" d=\"M0 30h3v-20h6v20h6v-20h6v20h6v-20h6v20h6v-20h6v20h6v-20h6v20h6v-20h6v20h6v-20\
        h6v20h6v-20h6v20h6v-20h6v20h3\"/>\n\
          <g id=\"a\"><use href=\"#k\"/><rect class=\"h\" x=\"96\" y=\"45\" width=\"12\" height=\"20\"/>\
          <rect class=\"a\" y=\"78\" width=\"108\" height=\"26\"/></g>\n\
          <g id=\"w\"><use href=\"#k\"/><rect class=\"h\" x=\"96\" y=\"45\" width=\"12\" height=\"20\"/>\
          <rect class=\"w\" y=\"78\" width=\"108\" height=\"26\"/></g>\n\
          <g id=\"r\"><use href=\"#k\"/><rect class=\"h\" y=\"45\" width=\"108\" height=\"20\"/>\
          <rect class=\"r\" y=\"78\" width=\"108\" height=\"26\"/><text x=\"54\" y=\"96\">read</text></g>\n\
          </defs>\n",
    );
}

#[tactic(auto, unfolding(crate::specs::Texts::legend_text))]
fn push_legend(text: &mut Text)
    requires { Room 609 text.old }
    ensures { Added text.old legend_text 609 text.new }
{
    text.push_text(
        b"<rect class=\"p\" width=\"840\" height=\"100%\"/>\n\
          <g class=\"n\"><text x=\"16\" y=\"26\" font-size=\"18\">I2C bus sequence</text>\n\
          <rect class=\"c\" x=\"16\" y=\"40\" width=\"14\" height=\"14\"/>\
          <text x=\"36\" y=\"52\">S START, Sr RESTART, P STOP</text>\n\
          <rect class=\"a\" x=\"290\" y=\"40\" width=\"14\" height=\"14\"/>\
          <text x=\"310\" y=\"52\">address</text>\n\
          <rect class=\"w\" x=\"400\" y=\"40\" width=\"14\" height=\"14\"/>\
          <text x=\"420\" y=\"52\">written</text>\n\
          <rect class=\"r\" x=\"510\" y=\"40\" width=\"14\" height=\"14\"/>\
          <text x=\"530\" y=\"52\">to be read</text>\n\
          <rect class=\"h\" x=\"640\" y=\"40\" width=\"14\" height=\"14\"/>\
          <text x=\"660\" y=\"52\">not set by the words</text></g>\n",
    );
}

// The opening tag, with the height.
fn push_opening(text: &mut Text, height: u32)
    requires { Room 200 text.old }
    ensures { Added text.old (opening_text height) 200 text.new }
{
    text.push_text(b"<svg xmlns=\"http://www.w3.org/2000/svg\" width=\"840\" height=\"");
    push_number(text, height);
    text.push_text(b"\" viewBox=\"0 0 840 ");
    push_number(text, height);
    text.push_text(
        b"\" font-family=\"monospace\" font-size=\"14\" text-anchor=\"middle\">\n\
          <title>I2C bus sequence</title>\n",
    );
}

#[tactic(auto, using(text_hex::proofs::Adding::at_most), unfolding(crate::specs::Picture::head_text))]
pub fn push_head(text: &mut Text, height: u32)
    requires { Room 2500 text.old }
    ensures { Added text.old (head_text height) 2500 text.new }
{
    push_opening(text, height);
    push_style(text);
    push_conditions(text);
    push_bytes(text);
    push_legend(text);
}
