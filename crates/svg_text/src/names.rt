// The names of elements and attributes.
ghost use Rattle.std.specs.Prelude.{◌≡◌, ◌≤◌, length};
ghost use Rattle.svg_text.specs.Names.{attribute_name, element_name};

/// An element of the text.
#[derive(Clone, Copy)]
pub(crate) enum Element {
    Svg,
    Title,
    Desc,
    Defs,
    Pattern,
    ClipPath,
    Group,
    Rect,
    Line,
    Circle,
    Polyline,
    Polygon,
    Text,
}

impl Element {
    pub fn name(self) -> &'static str
        ensures text { result.now ≡ element_name self }
        ensures short { length result.now ≤ 8 }
    {
        match self {
            Element::Svg => "svg",
            Element::Title => "title",
            Element::Desc => "desc",
            Element::Defs => "defs",
            Element::Pattern => "pattern",
            Element::ClipPath => "clipPath",
            Element::Group => "g",
            Element::Rect => "rect",
            Element::Line => "line",
            Element::Circle => "circle",
            Element::Polyline => "polyline",
            Element::Polygon => "polygon",
            Element::Text => "text",
        }
    }
}

/// An attribute of an element.
#[derive(Clone, Copy)]
pub(crate) enum Attribute {
    Namespace,
    Version,
    ViewBox,
    FontFamily,
    LineJoin,
    Id,
    PatternUnits,
    PatternTransform,
    ClipPath,
    X,
    Y,
    Width,
    Height,
    X1,
    Y1,
    X2,
    Y2,
    CenterX,
    CenterY,
    Radius,
    Points,
    Fill,
    FillOpacity,
    Stroke,
    StrokeWidth,
    StrokeDashes,
    FontSize,
    FontWeight,
    TextAnchor,
    Transform,
}

impl Attribute {
    pub fn name(self) -> &'static str
        ensures text { result.now ≡ attribute_name self }
        ensures short { length result.now ≤ 16 }
    {
        match self {
            Attribute::Namespace => "xmlns",
            Attribute::Version => "version",
            Attribute::ViewBox => "viewBox",
            Attribute::FontFamily => "font-family",
            Attribute::LineJoin => "stroke-linejoin",
            Attribute::Id => "id",
            Attribute::PatternUnits => "patternUnits",
            Attribute::PatternTransform => "patternTransform",
            Attribute::ClipPath => "clip-path",
            Attribute::X => "x",
            Attribute::Y => "y",
            Attribute::Width => "width",
            Attribute::Height => "height",
            Attribute::X1 => "x1",
            Attribute::Y1 => "y1",
            Attribute::X2 => "x2",
            Attribute::Y2 => "y2",
            Attribute::CenterX => "cx",
            Attribute::CenterY => "cy",
            Attribute::Radius => "r",
            Attribute::Points => "points",
            Attribute::Fill => "fill",
            Attribute::FillOpacity => "fill-opacity",
            Attribute::Stroke => "stroke",
            Attribute::StrokeWidth => "stroke-width",
            Attribute::StrokeDashes => "stroke-dasharray",
            Attribute::FontSize => "font-size",
            Attribute::FontWeight => "font-weight",
            Attribute::TextAnchor => "text-anchor",
            Attribute::Transform => "transform",
        }
    }
}
