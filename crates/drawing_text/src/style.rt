//! The style of all drawings.

/// The colours and strokes, for light and for dark screens.
pub const STYLE: &str = "<style>\n\
    text{font:12px ui-monospace,SFMono-Regular,Menlo,Consolas,'DejaVu Sans Mono',monospace}\n\
    .p{font-family:system-ui,-apple-system,'Segoe UI',Roboto,'DejaVu Sans',sans-serif}\n\
    .s{font-size:10.5px}\n\
    .b{font-weight:bold}\n\
    .t{font-size:15px;font-weight:bold}\n\
    path{fill:none;stroke-width:1.5}\n\
    .go path{stroke-width:2}\n\
    .back path{stroke-width:2;stroke-dasharray:6 3}\n\
    .set path{stroke-dasharray:6 3}\n\
    .forward path{stroke-dasharray:2 2}\n\
    .sync path{stroke-dasharray:8 3 2 3}\n\
    .get .tip,.set .tip,.forward .tip,.sync .tip,.go .tip,.back .tip,.loop .tip,.mark{stroke:none}\n\
    g:hover>path{stroke-width:3.5}\n\
    .relay rect{stroke-dasharray:3 3}\n\
    .band{fill-opacity:.07}\n\
    text,.go .tip,.back .tip{fill:#1f2328}\n\
    .d{fill:#57606a}\n\
    .ground{fill:#ffffff}\n\
    .lane{fill:#f3f4f6}\n\
    .host rect{fill:#dde7f1;stroke:#57606a}\n\
    .field rect{fill:#fbf3d9;stroke:#a88b3a}\n\
    .statement rect,.relay rect{fill:#ffffff;stroke:#9aa4ae}\n\
    .statement .mark{fill:#e69f00;stroke:none}\n\
    .mark{fill:#e69f00}\n\
    .band,.loop .tip,.loop text,.get .tip,.set .tip{fill:#0072b2}\n\
    .loop path,.get path,.set path{stroke:#0072b2}\n\
    .forward path{stroke:#00785a}\n\
    .forward .tip,.ride{fill:#00785a}\n\
    .sync path{stroke:#a23c80}\n\
    .sync .tip{fill:#a23c80}\n\
    .go path,.back path{stroke:#1f2328}\n\
    @media(prefers-color-scheme:dark){\n\
    text,.go .tip,.back .tip{fill:#e6edf3}\n\
    .d{fill:#9da7b3}\n\
    .ground{fill:#0d1117}\n\
    .lane{fill:#161b22}\n\
    .host rect{fill:#1f2d3d;stroke:#9da7b3}\n\
    .field rect{fill:#2b2611;stroke:#b89b4a}\n\
    .statement rect,.relay rect{fill:#0d1117;stroke:#6e7681}\n\
    .statement .mark{fill:#e69f00;stroke:none}\n\
    .mark{fill:#e69f00}\n\
    .band,.loop .tip,.loop text,.get .tip,.set .tip{fill:#56b4e9}\n\
    .loop path,.get path,.set path{stroke:#56b4e9}\n\
    .forward path{stroke:#3ecf9f}\n\
    .forward .tip,.ride{fill:#3ecf9f}\n\
    .sync path{stroke:#e08fc0}\n\
    .sync .tip{fill:#e08fc0}\n\
    .go path,.back path{stroke:#e6edf3}\n\
    }\n\
    </style>\n";
