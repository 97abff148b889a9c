// What a drawing is made of. All lengths and places are in units of the view box, to the right and downward.

/// A place in a drawing.
#[derive(Clone, Copy)]
pub struct Point {
    pub x: i32,
    pub y: i32,
}

/// A colour, by its shares of red, green and blue.
#[derive(Clone, Copy)]
pub struct Color {
    pub red: u8,
    pub green: u8,
    pub blue: u8,
}

/// How a line is broken into dashes.
#[derive(Clone, Copy)]
pub enum Dash {
    /// It isn't.
    Solid,
    /// Long dashes.
    Long,
    /// Short dashes.
    Short,
    /// Dots, far apart.
    Sparse,
    /// Dots, close together.
    Dotted,
    /// A long dash and a dot in turn.
    LongAndDot,
}

/// How a line is drawn.
#[derive(Clone, Copy)]
pub struct Stroke {
    pub color: Color,
    pub width: u16,
    pub dash: Dash,
}

/// What the inside of a mark shows.
#[derive(Clone, Copy)]
pub enum Fill {
    /// What is behind it.
    Nothing,
    /// A colour.
    Plain(Color),
    /// White stripes over what is behind it.
    Hatched,
}

/// How a mark is drawn: its inside, and the line round it, if any.
#[derive(Clone, Copy)]
pub struct Paint {
    pub fill: Fill,
    pub stroke: Option<Stroke>,
}

/// A rectangle, by its upper left corner.
#[derive(Clone, Copy)]
pub struct Area {
    pub corner: Point,
    pub width: u32,
    pub height: u32,
}

/// A mark of a fixed form.
#[derive(Clone, Copy)]
pub enum Shape {
    Rect(Area),
    /// A straight line.
    Segment { from: Point, to: Point },
    Circle { center: Point, radius: u16 },
}

/// What is drawn through points.
#[derive(Clone, Copy)]
pub enum Outline {
    /// A line from the first point to the last.
    Open,
    /// An area: the line goes back from the last point to the first.
    Closed,
}

/// Where words stand by their place.
#[derive(Clone, Copy)]
pub enum Anchor {
    /// They begin there.
    Start,
    /// Their middle is there.
    Middle,
    /// They end there.
    End,
}

/// How heavy letters are.
#[derive(Clone, Copy)]
pub enum Weight {
    Regular,
    Bold,
}

/// Which way words run.
#[derive(Clone, Copy)]
pub enum Turn {
    /// To the right.
    Level,
    /// Upward.
    Upward,
}

/// How words are drawn, and where.
#[derive(Clone, Copy)]
pub struct Lettering {
    pub at: Point,
    pub size: u16,
    pub anchor: Anchor,
    pub weight: Weight,
    pub turn: Turn,
    pub paint: Paint,
}

/// Which marks of a section are shown.
#[derive(Clone, Copy)]
pub enum Clip {
    /// All of them.
    Whole,
    /// What lies within the window of the frame.
    Window,
}
